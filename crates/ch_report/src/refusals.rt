//! Refusals of recipes.
ghost use Rattle.std.specs.Prelude.{◌≡◌, ◌++◌, OnOk};
ghost use Rattle.ch_report.specs.Refusals.{buffer_cell, cause_text, cell_of};
ghost use Rattle.ch_report.specs.Refusals.{illegal_text, refusal_text, shape_text};

use ch_affine::Text;
use ch_nest::{ArrayDecl, Shape};
use ch_print::{put_buffer, put_cell, put_identity, put_number, put_subscripts, put_wide};
use ch_script::Refusal;
use ch_timed::{Cell, Identity};
use std::alloc::AllocError;

/// Adds the number of a cause, which C3 and C10 don't have.
fn put_cause(out: &mut Text, cause: Shape) -> Result<(), AllocError>
    ensures { OnOk result (out.new ≡ out.old ++ cause_text cause.code cause.number) }
{
    if cause.code == 3 || cause.code == 10 {
        return Ok(());
    }
    out.append(b" ")?;
    put_wide(out, cause.number)
}

#[tactic(auto, unfolding(crate::specs::Refusals::shape_text))]
fn put_shape(out: &mut Text, step: u32, cause: Shape) -> Result<(), AllocError>
    ensures { OnOk result (out.new ≡ out.old ++ shape_text step cause) }
{
    out.append(b"shape at ")?;
    put_number(out, u64::from(step))?;
    out.append(b": C")?;
    put_number(out, u64::from(cause.code))?;
    put_cause(out, cause)
}

/// Adds a cell of the buffer of this number.
fn put_buffer_cell(out: &mut Text, number: u64, subscripts: &[i64]) -> Result<(), AllocError>
    ensures { OnOk result (out.new ≡ out.old ++ buffer_cell number subscripts.now) }
{
    put_buffer(out, number)?;
    put_subscripts(out, subscripts)
}

/// Adds a cell of a declared array, or of a buffer: those are numbered on behind the arrays.
fn put_owned(out: &mut Text, arrays: &[ArrayDecl], cell: &Cell) -> Result<(), AllocError>
    ensures { OnOk result (out.new ≡ out.old ++ cell_of arrays.now cell.now) }
{
    let subscripts = cell.subs.as_slice();
    match arrays.get(cell.array as usize) {
        Some(array) => put_cell(out, &array.name, subscripts),
        None => {
            let number = u64::from(cell.array) - arrays.len() as u64;
            put_buffer_cell(out, number, subscripts)
        }
    }
}

#[tactic(auto, unfolding(crate::specs::Refusals::illegal_text))]
fn put_pair(
    out: &mut Text,
    arrays: &[ArrayDecl],
    step: u32,
    first: &Identity,
    second: &Identity,
    cell: &Cell,
) -> Result<(), AllocError>
    ensures { OnOk result (out.new
        ≡ out.old ++ illegal_text arrays.now step first.now second.now cell.now) }
{
    out.append(b"illegal at ")?;
    put_number(out, u64::from(step))?;
    out.append(b": ")?;
    put_identity(out, first)?;
    out.append(b" before ")?;
    put_identity(out, second)?;
    out.append(b" on ")?;
    put_owned(out, arrays, cell)
}

/// Adds a refusal of a recipe at a program with these arrays: `illegal at 1: S0(1,1) before S0(2,0)
/// on A[1][1]`, or `shape at 2: C4 65`.
pub fn put_refusal(
    out: &mut Text,
    arrays: &[ArrayDecl],
    refusal: &Refusal,
) -> Result<(), AllocError>
    ensures { OnOk result (out.new ≡ out.old ++ refusal_text arrays.now refusal.now) }
{
    match refusal {
        Refusal::Shape { step, cause } => put_shape(out, *step, *cause),
        Refusal::Illegal {
            step,
            first,
            second,
            cell,
        } => put_pair(out, arrays, *step, first, second, cell),
    }
}
