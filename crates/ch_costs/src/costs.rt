//! What the code of a space costs, and what it leaves.

ghost use Rattle.std.specs.Prelude.{◌≡◌, length, map};
ghost use Rattle.ch_code.specs.Trace.{unit_trace};
ghost use Rattle.ch_deck.specs.Programs.{IsProgram};
ghost use Rattle.ch_eval.specs.Cells.{sizes_of, unit_extents};
ghost use Rattle.ch_timed.specs.Flat.{StaysInside};
ghost use Rattle.ch_variant.specs.Meaning.{KeepsNest};

use ch_code::Unit;
use ch_codegen::generate;
use ch_deck::Program;
use ch_eval::{Arrays, run};
use ch_nest::{Machine, filled, perform};
use ch_space::Space;
use std::alloc::{AllocError, Global};

/// Whether the arrays are those that the program leaves.
#[tactic(auto, using(ch_nest::proofs::Sounds::arrays_of, ch_nest::proofs::Sounds::inside_of))]
fn are_left(alloc: Global, program: &Program, arrays: &Arrays) -> Result<bool, AllocError>
    requires program { IsProgram program.now }
    requires sizes { map length arrays.now ≡ sizes_of program.now.nest.arrays }
{
    let nest = &program.nest;
    nest.known();
    let mut cells = filled(alloc, nest.arrays.as_slice(), program.fills.as_slice())?;
    perform(alloc, nest, &mut cells)?;
    let Ok(count) = u32::try_from(nest.arrays.len()) else {
        return Ok(false);
    };
    let mut wanted = cells.as_slice().iter();
    for k in 0..count {
        for cell in arrays.array(k) {
            if wanted.next() != Some(cell) {
                return Ok(false);
            }
        }
    }
    Ok(wanted.next().is_none())
}

/// What the last of so many further runs on the same arrays costs.
fn cost_again(
    alloc: Global,
    unit: &Unit,
    arrays: &mut Arrays,
    machine: &Machine,
    repeats: u32,
) -> Result<u64, AllocError>
    requires sizes { map length arrays.old ≡ sizes_of unit.now.arrays }
    requires inside { StaysInside (unit_extents unit.now) (unit_trace unit.now) }
{
    let mut cost = 0;
    for _ in 0..repeats {
        cost = run(alloc, unit, arrays, machine)?;
    }
    Ok(cost)
}

/// What the unit's code costs, told of it and of what it leaves.
fn told(
    alloc: Global,
    program: &Program,
    unit: &Unit,
    machine: &Machine,
    repeats: u32,
) -> Result<String, AllocError>
    requires program { IsProgram program.now }
    requires arrays { unit.now.arrays ≡ program.now.nest.arrays }
    requires inside { StaysInside (unit_extents unit.now) (unit_trace unit.now) }
{
    let mut arrays = Arrays::filled(alloc, &program.nest, program.fills.as_slice())?;
    let cost = run(alloc, unit, &mut arrays, machine)?;
    let left = if are_left(alloc, program, &arrays)? {
        "the same arrays"
    } else {
        "other arrays"
    };
    let again = cost_again(alloc, unit, &mut arrays, machine, repeats)?;
    if again != cost {
        return format!(in alloc; "cost {cost}, then {again}, {left}");
    }
    format!(in alloc; "cost {cost}, {left}")
}

/// What the code of a space of the program costs, and whether it leaves what the program leaves.
pub(crate) fn costed(
    alloc: Global,
    program: &Program,
    space: &Space,
    machine: &Machine,
    repeats: u32,
) -> Result<String, AllocError>
    requires program { IsProgram program.now }
    requires arrays { space.now.arrays ≡ length program.now.nest.arrays }
    requires keeps { KeepsNest program.now.nest space.now.list space.now.temps }
{
    let unit = generate(alloc, &program.nest, space)?;
    told(alloc, program, &unit, machine, repeats)
}
