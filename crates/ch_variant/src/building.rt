//! Variants built by a recipe, and the original.

ghost use Rattle.std.specs.Prelude.{◌≡◌, Some, None, length, IfOk, IsTrue};
ghost use Rattle.ch_grid.specs.Grid.{sizes};
ghost use Rattle.ch_grid.specs.Points.{is_point};
ghost use Rattle.ch_nest.specs.Sound.{is_sound};
ghost use Rattle.ch_timed.specs.Timed.{is_well_formed};
ghost use Rattle.ch_variant.specs.Applied.{IsAnswer};
ghost use Rattle.ch_variant.specs.Meaning.{KeepsNest};
ghost use Rattle.ch_variant.specs.Points.{used_values};
ghost use Rattle.ch_variant.specs.Refusals.{PairIsLeast};
ghost use Rattle.ch_variant.specs.Sources.{origin_of};
ghost use Rattle.ch_variant.specs.Variants.{Refuses, applied_at, origin_at};

use crate::applying::apply;
use crate::error::ApplyError;
use crate::point::used_point;
use crate::variant::{Source, Variant};
use ch_affine::List;
use ch_codegen::generate;
use ch_constrain::values_at;
use ch_grid::Grid;
use ch_nest::Nest;
use ch_script::Recipe;
use ch_space::{Space, space_of};
use ch_timed::Timed;
use std::alloc::{AllocError, Global};
use std::snapshot::Snapshot;

/// The program that a recipe makes of a nest at the point that is used for a point of a grid.
fn space_at(
    alloc: Global,
    nest: &Nest,
    recipe: &Recipe,
    grid: &Grid,
    point: &[u32],
) -> Result<Space, ApplyError>
    requires sound { IsTrue (is_sound nest.now) }
    requires params { length grid.now.params ≡ length recipe.now.params }
    requires point { IsTrue (is_point (sizes grid.now.params) point.now) }
    ensures answer { IsAnswer result
        (applied_at nest.now (origin_at recipe.now grid.now.params point.now)) }
    ensures least { PairIsLeast nest.now recipe.now.commands
        (used_values recipe.now grid.now.params point.now) result }
    ensures arrays { IfOk result (λ space. space.arrays ≡ length nest.now.arrays) }
    ensures well_formed { IfOk result (λ space. IsTrue (is_well_formed space.list)) }
    ensures keeps { IfOk result (λ space. KeepsNest nest.now space.list space.temps) }
{
    let used = used_point(alloc, recipe, grid, point)?;
    let values = values_at(alloc, grid, used.as_slice())?;
    apply(alloc, nest, recipe, values.as_slice())
}

fn source_at(
    alloc: Global,
    recipe: &Recipe,
    grid: &Grid,
    point: &[u32],
) -> Result<Source, AllocError>
    ensures { IfOk result (λ source. origin_of (Some source)
        ≡ Some (origin_at recipe.now grid.now.params point.now)) }
{
    Ok(Source {
        recipe: Snapshot::of(recipe),
        grid: Snapshot::of(grid),
        point: List::from_slice(alloc, point)?,
    })
}

/// The variant of a sound nest under a recipe, for a point of a grid: at the values of the nearest
/// point that meets the recipe's conditions (`used_point`). It is refused exactly where the recipe
/// is at these values.
///
/// The grid has a parameter for each of the recipe, and the point is one of the grid.
pub fn build(
    alloc: Global,
    subject: u32,
    nest: &Nest,
    recipe: &Recipe,
    grid: &Grid,
    point: &[u32],
) -> Result<Variant, ApplyError>
    requires sound { IsTrue (is_sound nest.now) }
    requires params { length grid.now.params ≡ length recipe.now.params }
    requires point { IsTrue (is_point (sizes grid.now.params) point.now) }
    ensures answer { Refuses result
        (applied_at nest.now (origin_at recipe.now grid.now.params point.now)) }
    ensures least { PairIsLeast nest.now recipe.now.commands
        (used_values recipe.now grid.now.params point.now) result }
    ensures made { IfOk result (λ variant. variant.making ≡ record {
      subject = subject;
      nest = nest.now;
      origin = Some (origin_at recipe.now grid.now.params point.now);
    }) }
{
    let space = space_at(alloc, nest, recipe, grid, point)?;
    let unit = generate(alloc, nest, &space)?;
    let source = source_at(alloc, recipe, grid, point)?;
    Ok(Variant {
        subject,
        nest: Snapshot::of(nest),
        source: Some(source),
        unit,
    })
}

/// A sound nest as it is.
pub fn original(alloc: Global, subject: u32, nest: &Nest) -> Result<Variant, AllocError>
    requires { IsTrue (is_sound nest.now) }
    ensures { IfOk result (λ variant. variant.making
        ≡ record { subject = subject; nest = nest.now; origin = None }) }
{
    let space = space_of(alloc, nest)?;
    space.known();
    let unit = generate(alloc, nest, &space)?;
    Ok(Variant {
        subject,
        nest: Snapshot::of(nest),
        source: None,
        unit,
    })
}
