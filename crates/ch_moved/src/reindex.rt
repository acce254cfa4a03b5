ghost use Rattle.std.specs.Prelude.{◌≡◌, ◌+◌, ◌≤◌, ◌^◌, ◌++◌, length, map, IfOk, OnOk};
ghost use Rattle.std.specs.List.{All};
ghost use Rattle.ch_affine.specs.Affine.{IsAtMost, IsSmall};
ghost use Rattle.ch_affine.specs.Rows.{IsBox, system};
ghost use Rattle.ch_moved.specs.Changed.{AllLong, IsChanged};
ghost use Rattle.ch_moved.specs.Reindexed.{IsReindexed};
ghost use Rattle.ch_moved.specs.Spread.{widened};
ghost use Rattle.ch_moved.specs.Substituted.{substituted};
ghost use Rattle.ch_space.specs.Keeps.{IsWhole};

use crate::bounds::conditions;
use crate::substitute::substituted;
use crate::ties::{push_widened, tied_rows};
use ch_affine::{Aff, List, Range, System};
use ch_space::Piece;
use ch_space::copies::copied_body;
use std::alloc::{AllocError, Global};

fn push_ranges(boxes: &mut List<Range>, more: &[Range]) -> Result<(), AllocError>
    ensures { OnOk result (boxes.new ≡ boxes.old ++ more.now) }
{
    for range in more {
        boxes.push(*range)?;
    }
    Ok(())
}

/// The system of rows over all variables and conditions on the first of them, which the boxes are
/// for, before the hidden ones.
fn joined(
    alloc: Global,
    rows: List<Aff>,
    conditions: &[Aff],
    boxes: List<Range>,
    hidden: &[Range],
) -> Result<System, AllocError>
    requires few { length boxes + length hidden.now ≤ 4096 }
    requires rows { AllLong (length boxes + length hidden.now) rows }
    requires conditions { AllLong (length boxes) conditions.now }
    requires boxes { All IsBox boxes }
    requires hidden { All IsBox hidden.now }
    ensures { IfOk result (λ s. s ≡ system (length boxes + length hidden.now)
        (rows ++ map (widened (length hidden.now)) conditions.now) (boxes ++ hidden.now)) }
{
    let mut rows = rows;
    let mut boxes = boxes;
    push_widened(alloc, &mut rows, hidden.len(), conditions)?;
    push_ranges(&mut boxes, hidden)?;
    Ok(System {
        vars: boxes.len() as u32,
        rows,
        boxes,
    })
}

/// The system over new variables from which the forms give the first ones of the old system. Where
/// a number would pass the limit of forms the old variables become hidden ones, and the row stays
/// as it was.
fn changed(
    alloc: Global,
    old: &System,
    forms: &[Aff],
    boxes: List<Range>,
    extra: &[Aff],
) -> Result<System, AllocError>
    requires levels { length forms.now ≤ 10 }
    requires old { length forms.now ≤ old.now.vars }
    requires long { AllLong (length boxes) forms.now }
    requires near { All (λ f. IsAtMost (2 ^ 59) f.constant) forms.now }
    requires extra_long { AllLong (length boxes) extra.now }
    requires ranges { All IsBox boxes }
    requires few { length boxes + old.now.vars ≤ 4096 }
    ensures { IfOk result (λ s. IsChanged old.now forms.now boxes extra.now s) }
{
    let ranges = old.boxes.as_slice();
    let rows = old.rows.as_slice();
    let (given, hidden) = ranges.split_at(forms.len());
    let conditions = conditions(alloc, boxes.as_slice(), forms, given, extra)?;
    match substituted(alloc, boxes.len(), forms, rows)? {
        Some(new) => joined(alloc, new, conditions.as_slice(), boxes, hidden),
        None => {
            let new = tied_rows(alloc, boxes.len(), forms, old)?;
            joined(alloc, new, conditions.as_slice(), boxes, ranges)
        }
    }
}

/// Forms over the old levels as forms over the new ones.
fn origin_over(
    alloc: Global,
    variables: usize,
    forms: &[Aff],
    origin: &[Aff],
) -> Result<List<Aff>, AllocError>
    requires levels { length forms.now ≤ 10 }
    requires long { AllLong variables forms.now }
    requires old { AllLong (length forms.now) origin.now }
    requires few { variables + length forms.now ≤ 4096 }
    requires small { All (λ f. IsSmall (substituted variables forms.now f)) origin.now }
    ensures { IfOk result (λ new. new ≡ map (substituted variables forms.now) origin.now) }
{
    match substituted(alloc, variables, forms, origin)? {
        Some(new) => Ok(new),
        // By the requirement the numbers are small.
        None => unreachable!(),
    }
}

/// The piece over new levels within these ranges, at whose values the extra rows hold and from
/// which the forms give the values of the old levels: the change of variables of a loop
/// transformation. Where a row would get a number above 2^60 it stays as it was, over hidden
/// variables that hold the old level values.
pub fn reindexed(
    alloc: Global,
    piece: &Piece,
    forms: &[Aff],
    boxes: List<Range>,
    extra: &[Aff],
    places: List<u32>,
) -> Result<Piece, AllocError>
    requires whole { IsWhole piece.now }
    requires levels { piece.now.levels ≤ 10 }
    requires many { length forms.now ≡ piece.now.levels }
    requires long { All (λ f. length f.coefs ≡ length boxes) forms.now }
    requires near { All (λ f. IsAtMost (2 ^ 59) f.constant) forms.now }
    requires extra_long { All (λ f. length f.coefs ≡ length boxes) extra.now }
    requires ranges { All IsBox boxes }
    requires few { length boxes + (piece.now.levels + piece.now.hidden) ≤ 4096 }
    requires places { length places ≡ length boxes + 1 }
    requires origin { All (λ f. IsSmall (substituted (length boxes) forms.now f)) piece.now.origin }
    ensures { IfOk result (λ new. IsReindexed piece.now forms.now boxes extra.now places new) }
{
    let levels = boxes.len();
    let origin = origin_over(alloc, levels, forms, piece.origin.as_slice())?;
    let body = copied_body(alloc, &piece.body)?;
    let system = changed(alloc, &piece.system, forms, boxes, extra)?;
    Ok(Piece {
        label: piece.label,
        body,
        levels: levels as u32,
        hidden: system.vars - levels as u32,
        system,
        origin,
        places,
    })
}
