//! What is said of a recipe, as text.

use ch_affine::Text;
use ch_nest::{ArrayDecl, Shape};
use ch_print::{put_buffer, put_cell, put_identity, put_number, put_wide};
use ch_script::Refusal;
use ch_timed::{Cell, Identity};
use ch_variant::Judgement;
use std::alloc::{AllocError, Global};

fn put_place(out: &mut Text, arrays: &[ArrayDecl], cell: &Cell) -> Result<(), AllocError> {
    let subscripts = cell.subs.as_slice();
    match arrays.get(cell.array as usize) {
        Some(array) => put_cell(out, &array.name, subscripts),
        None => put_buffer(out, u64::from(cell.array)),
    }
}

/// The refusal of a command by its shape. C3 and C10 have no number.
fn shape_text(alloc: Global, step: u32, cause: Shape) -> Result<Text, AllocError> {
    let mut out = Text::new(alloc);
    out.append(b"shape at ")?;
    put_number(&mut out, u64::from(step))?;
    out.append(b": C")?;
    put_number(&mut out, u64::from(cause.code))?;
    if cause.code != 3 && cause.code != 10 {
        out.append(b" ")?;
        put_wide(&mut out, cause.number)?;
    }
    Ok(out)
}

/// The refusal of a command by the pair that it reverses, as far as the cell.
fn pair_text(
    alloc: Global,
    step: u32,
    first: &Identity,
    second: &Identity,
) -> Result<Text, AllocError> {
    let mut out = Text::new(alloc);
    out.append(b"illegal at ")?;
    put_number(&mut out, u64::from(step))?;
    out.append(b": ")?;
    put_identity(&mut out, first)?;
    out.append(b" before ")?;
    put_identity(&mut out, second)?;
    out.append(b" on ")?;
    Ok(out)
}

pub(crate) fn refusal_text(
    alloc: Global,
    arrays: &[ArrayDecl],
    refusal: &Refusal,
) -> Result<Text, AllocError> {
    match refusal {
        Refusal::Shape { step, cause } => shape_text(alloc, *step, *cause),
        Refusal::Illegal {
            step,
            first,
            second,
            cell,
        } => {
            let mut out = pair_text(alloc, *step, first, second)?;
            put_place(&mut out, arrays, cell)?;
            Ok(out)
        }
    }
}

pub(crate) fn legal_text(alloc: Global, judgement: Judgement) -> Result<Text, AllocError> {
    let mut out = Text::new(alloc);
    out.append(b"legal pieces ")?;
    put_number(&mut out, u64::from(judgement.pieces))?;
    out.append(b" instances ")?;
    put_number(&mut out, judgement.instances)?;
    Ok(out)
}

/// A judgement, and behind it the number of guards.
pub(crate) fn guarded_text(
    alloc: Global,
    judgement: &Text,
    guards: u32,
) -> Result<Text, AllocError> {
    let mut out = judgement.copied(alloc)?;
    out.append(b" guards ")?;
    put_number(&mut out, u64::from(guards))?;
    Ok(out)
}

/// Numbers with commas between them.
fn put_values(out: &mut Text, values: &[i64]) -> Result<(), AllocError> {
    for (k, value) in values.iter().enumerate() {
        if k > 0 {
            out.append(b",")?;
        }
        put_wide(out, i128::from(*value))?;
    }
    Ok(())
}

/// What is said here, and what is said for the values that are used in place of others.
pub(crate) fn used_text(
    alloc: Global,
    here: &Text,
    values: &[i64],
    there: &Text,
) -> Result<Text, AllocError> {
    let mut out = here.copied(alloc)?;
    out.append(b" used ")?;
    put_values(&mut out, values)?;
    out.append(b": ")?;
    out.append(there.as_bytes())?;
    Ok(out)
}
