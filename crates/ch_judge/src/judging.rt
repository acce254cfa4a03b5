//! What is said of a recipe, at values of its parameters and at a point of a grid.
ghost use Rattle.std.specs.Prelude.{◌≡◌, ◌≤◌, ◌^◌, Ok, length, IfOk, IsTrue};
ghost use Rattle.std.specs.List.{All};
ghost use Rattle.ch_affine.specs.Affine.{IsAtMost};
ghost use Rattle.ch_code.specs.Trace.{unit_trace};
ghost use Rattle.ch_code.specs.WellFormed.{IsUnit};
ghost use Rattle.ch_cost.specs.Cost.{cost};
ghost use Rattle.ch_eval.specs.Cells.{unit_extents};
ghost use Rattle.ch_grid.specs.Grid.{sizes};
ghost use Rattle.ch_grid.specs.Points.{is_point};
ghost use Rattle.ch_judge.specs.Judged.{IsCodeFor, IsSubject, judged_at, told_of};
ghost use Rattle.ch_timed.specs.Flat.{StaysInside};
ghost use Rattle.ch_variant.specs.Applied.{IsAnswer, applied};
ghost use Rattle.ch_variant.specs.Judgements.{judged};
ghost use Rattle.ch_variant.specs.Refusals.{PairIsLeast};
ghost use Rattle.ch_variant.specs.Variants.{Refuses, origin_at};

use crate::subject::Subject;
use ch_code::Unit;
use ch_codegen::generate;
use ch_eval::{Arrays, run};
use ch_grid::Grid;
use ch_nest::{Fill, Machine, Nest};
use ch_space::{Space, count, pieces};
use ch_variant::{ApplyError, apply, build};
use std::alloc::{AllocError, Global};

/// The program that a legal recipe makes: how many pieces it has, which are the sets of statement
/// instances with the same static places; how many instances; and what they cost on the machine.
#[derive(Clone, Copy, Debug, PartialEq, Eq)]
pub struct Told {
    pub pieces: u32,
    pub instances: u64,
    pub cost: u64,
}

/// What a legal recipe makes: what is told of the program, the program itself, and code for it.
#[derive(Debug, Drop)]
pub struct Shown {
    pub told: Told,
    pub space: Space,
    pub unit: Unit,
}

/// Tells a caller what a unit keeps by its type. It does nothing.
fn known_unit(unit: &Unit)
    ensures { IsUnit unit.now }
{
    let _ = unit.temps.len();
}

/// What a unit costs whose arrays are the nest's.
fn unit_cost(
    alloc: Global,
    nest: &Nest,
    fills: &[Fill],
    unit: &Unit,
    machine: &Machine,
) -> Result<u64, AllocError>
    requires filled { length fills.now ≡ length nest.now.arrays }
    requires arrays { unit.now.arrays ≡ nest.now.arrays }
    requires inside { StaysInside (unit_extents unit.now) (unit_trace unit.now) }
    ensures { IfOk result (λ c.
        c ≡ cost machine.now (unit_extents unit.now) (unit_trace unit.now)) }
{
    let mut arrays = Arrays::filled(alloc, nest, fills)?;
    run(alloc, unit, &mut arrays, machine)
}

/// The program that a recipe makes at these values of its parameters, with what is told of it and
/// code for it, or the recipe's refusal, as `ch_variant::apply` answers it.
///
/// There is one value, of magnitude at most 2^20, for each parameter; the conditions between the
/// parameters aren't looked at.
pub fn show(alloc: Global, subject: &Subject<'_>, values: &[i64]) -> Result<Shown, ApplyError>
    requires subject { IsSubject subject.now }
    requires params { length values.now ≡ length subject.now.recipe.now.params }
    requires small { All (IsAtMost (2 ^ 20)) values.now }
    ensures refusal { Refuses result
        (applied subject.now.nest.now subject.now.recipe.now.commands values.now) }
    ensures least { PairIsLeast subject.now.nest.now subject.now.recipe.now.commands values.now
        result }
    ensures program { IfOk result (λ shown.
        applied subject.now.nest.now subject.now.recipe.now.commands values.now
        ≡ Ok shown.space) }
    ensures told { IfOk result (λ shown.
        shown.told ≡ told_of subject.now.machine.now subject.now.nest.now shown.space) }
    ensures code { IfOk result (λ shown. IsCodeFor subject.now.nest.now shown.space shown.unit) }
{
    let nest = subject.nest;
    let space = apply(alloc, nest, subject.recipe, values)?;
    let unit = generate(alloc, nest, &space)?;
    known_unit(&unit);
    let cost = unit_cost(alloc, nest, subject.fills, &unit, subject.machine)?;
    let told = Told {
        pieces: pieces(&space),
        instances: count(&space),
        cost,
    };
    Ok(Shown { told, space, unit })
}

/// The pieces, the instances and the cost of the program that a recipe makes at these values of its
/// parameters, or the recipe's refusal, as `show` answers it.
pub fn tell(alloc: Global, subject: &Subject<'_>, values: &[i64]) -> Result<Told, ApplyError>
    requires subject { IsSubject subject.now }
    requires params { length values.now ≡ length subject.now.recipe.now.params }
    requires small { All (IsAtMost (2 ^ 20)) values.now }
    ensures answer { IsAnswer result
        (judged (told_of subject.now.machine.now subject.now.nest.now)
        subject.now.nest.now subject.now.recipe.now.commands values.now) }
    ensures least { PairIsLeast subject.now.nest.now subject.now.recipe.now.commands values.now
        result }
{
    let shown = show(alloc, subject, values)?;
    Ok(shown.told)
}

/// The cost of the program that is built for a point of a grid, at the nearest point that meets the
/// recipe's conditions, or the refusal of the recipe there, as `ch_variant::build` answers it. The
/// grid has a parameter for each of the recipe.
pub fn judge(
    alloc: Global,
    subject: &Subject<'_>,
    grid: &Grid,
    point: &[u32],
) -> Result<u64, ApplyError>
    requires subject { IsSubject subject.now }
    requires params { length grid.now.params ≡ length subject.now.recipe.now.params }
    requires point { IsTrue (is_point (sizes grid.now.params) point.now) }
    ensures { IsAnswer result (judged_at subject.now.machine.now subject.now.nest.now
        (origin_at subject.now.recipe.now grid.now.params point.now)) }
{
    let nest = subject.nest;
    let variant = build(alloc, 0, nest, subject.recipe, grid, point)?;
    variant.known();
    let cost = unit_cost(alloc, nest, subject.fills, variant.unit(), subject.machine)?;
    Ok(cost)
}
