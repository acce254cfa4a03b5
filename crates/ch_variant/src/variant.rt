ghost use Rattle.std.specs.Prelude.{◌≡◌, ◌++◌};
ghost use Rattle.ch_code.specs.Trace.{unit_trace};
ghost use Rattle.ch_nest.specs.Arrays.{extents_of};
ghost use Rattle.ch_timed.specs.Flat.{StaysInside};
ghost use Rattle.ch_variant.specs.Meaning.{RunsNest};
ghost use Rattle.ch_variant.specs.Variants.{IsVariant, point_of};

use ch_affine::List;
use ch_code::Unit;
use ch_grid::Grid;
use ch_nest::Nest;
use ch_script::Recipe;
use ch_session::Made;
use std::marker::Model;
use std::snapshot::Snapshot;

/// A recipe at a point of a grid. The recipe and the grid are there for contracts alone.
#[derive(Drop)]
pub(crate) struct Source {
    pub(crate) recipe: Snapshot<Recipe>,
    pub(crate) grid: Snapshot<Grid>,
    pub(crate) point: List<u32>,
}

/// Code for a nest, made by a recipe at a point of a grid, or for the nest as it is.
///
/// By its type the nest is one that can be run, the code executes the list of the program that the
/// recipe makes of it, in the order of its time vectors, and no subscript leaves its array; run on
/// any arrays it leaves what the nest leaves there.
#[derive(Drop)]
pub struct Variant {
    pub(crate) subject: u32,
    pub(crate) nest: Snapshot<Nest>,
    pub(crate) source: Option<Source>,
    pub(crate) unit: Unit,
}

impl Model for Variant {
    ghost use Rattle.std.specs.Coded.{codes};
    ghost use Rattle.ch_code.specs.contracts.code.Code as code;
    ghost use Rattle.ch_nest.specs.contracts.nest.ArrayDecl as array;
    ghost use Rattle.ch_nest.specs.contracts.nest.Item as item;
    ghost use Rattle.ch_script.specs.contracts.recipe.Cond as cond;
    ghost use Rattle.ch_script.specs.contracts.recipe.Command as command;
    ghost use Rattle.ch_variant.specs.Variants.{IsVariant, VariantParts};
    ghost use Rattle.ch_variant.specs.Sources.{parts_of};

    ghost Value = { VariantParts };

    ghost coded = { Prim.hlevel (codes, code.the_row.coded, array.the_row.coded, item.the_row.coded, cond.the_row.coded, command.the_row.coded) };

    ghost view = { λ v. parts_of v.subject v.nest.value v.source v.unit };

    ghost invariant = { λ v. IsVariant (parts_of v.subject v.nest.value v.source v.unit) };
}

impl Made for Variant {
    ghost made = { λ v. v.making };
}

impl Variant {
    pub fn unit(&self) -> &Unit
        ensures { result.now ≡ self.now.unit }
    {
        &self.unit
    }

    /// The number of the session that it was made for.
    pub fn subject(&self) -> u32
        ensures { result ≡ self.now.making.subject }
    {
        self.subject
    }

    /// The point that it was made at; the empty one for the nest itself.
    pub fn point(&self) -> &[u32]
        ensures { result.now ≡ point_of self.now.making.origin }
    {
        match &self.source {
            None => &[],
            Some(source) => source.point.as_slice(),
        }
    }

    /// Tells a caller what each variant keeps by its type. It does nothing.
    pub fn known(&self)
        ensures keeps { IsVariant self.now }
        ensures inside { StaysInside
            (extents_of self.now.making.nest.arrays ++ self.now.unit.temps) (unit_trace self.now.unit) }
        ensures runs { RunsNest self.now.making.nest (unit_trace self.now.unit) self.now.unit.temps }
    {
        let _subject = self.subject;
    }
}
