//! Running a unit.

ghost use Rattle.std.specs.Prelude.{◌≡◌, ◌*◌, min, length, map, take, IfOk, OnErr, OnOk};
ghost use Rattle.ch_code.specs.Trace.{unit_trace};
ghost use Rattle.ch_cost.specs.Cost.{cost};
ghost use Rattle.ch_nest.specs.Arrays.{cells_in, total};
ghost use Rattle.ch_timed.specs.Flat.{StaysInside, done_flat, with_buffers};
ghost use Rattle.ch_eval.specs.Cells.{joined, most_length, sizes_of, unit_extents};

use crate::arrays::Arrays;
use crate::ready::make_ready;
use ch_affine::List;
use ch_code::Unit;
use ch_nest::Machine;
use std::alloc::{AllocError, Global};

/// More cells than a vector can have.
const MOST_CELLS: usize = 1 << 63;

fn product(x: usize, y: usize) -> usize
    ensures { result ≡ min most_length (x * y) }
{
    x.saturating_mul(y).min(MOST_CELLS)
}

/// How many cells a buffer has, or 2^63 where it has more.
fn capped_cells(extents: &[u32]) -> usize
    ensures { result ≡ min most_length (cells_in extents.now) }
{
    match extents {
        [] => 1,
        [extent, inner @ ..] => product(*extent as usize, capped_cells(inner)),
    }
}

/// How many cells the buffers have together, or 2^63 where they have more.
fn capped_total(temps: &[List<u32>]) -> usize
    ensures { result ≡ min most_length (total temps.now) }
{
    let mut cells = 0usize;
    for extents in temps {
        cells = cells
            .saturating_add(capped_cells(extents.as_slice()))
            .min(MOST_CELLS);
    }
    cells
}

/// Executes what the unit's code executes, on the arrays and on buffers that start as 0, and
/// answers what it costs on the machine.
///
/// All memory is taken before the first cell is written: where there is too little, the arrays are
/// as they were.
pub fn run(
    alloc: Global,
    unit: &Unit,
    arrays: &mut Arrays,
    machine: &Machine,
) -> Result<u64, AllocError>
    requires sizes { map length arrays.old ≡ sizes_of unit.now.arrays }
    requires inside { StaysInside (unit_extents unit.now) (unit_trace unit.now) }
    ensures cells { OnOk result (joined arrays.new ≡ take (length (joined arrays.old))
        (done_flat (unit_extents unit.now) (unit_trace unit.now)
        (with_buffers unit.now.temps (joined arrays.old)))) }
    ensures sizes { map length arrays.new ≡ map length arrays.old }
    ensures cost { IfOk result (λ c. c
        ≡ cost machine.now (unit_extents unit.now) (unit_trace unit.now)) }
    ensures err { OnErr result (arrays.new ≡ arrays.old) }
{
    let mut ready = make_ready(alloc, unit, machine)?;
    let buffers = vec![in alloc; 0i64; capped_total(unit.temps.as_slice())]?;
    arrays.worked(&mut ready, buffers.as_slice())
}
