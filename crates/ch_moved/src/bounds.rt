//! The rows which say that forms have values in ranges, where the boxes of their variables don't.

ghost use Rattle.std.specs.Prelude.{◌≡◌, ◌≤◌, ◌^◌, ◌+◌, ◌+ℤ◌, ◌-ℤ◌, ◌≤ℤ◌, ◌&&◌, ℤ, List};
ghost use Rattle.std.specs.Prelude.{pos, length, int_le, take, IsTrue, IfOk, OnOk};
ghost use Rattle.std.specs.List.{All};
ghost use Rattle.ch_affine.specs.Affine.{IsAtMost, value};
ghost use Rattle.ch_affine.specs.Rows.{IsBox, all_hold, lies_in};
ghost use Rattle.ch_moved.specs.Changed.{AllLong, AreConditions};
ghost use Rattle.ch_moved.specs.Spread.{above, opposite};
ghost use Rattle.ch_moved.specs.Substituted.{image};
ghost use Rattle.ch_nest.specs.Shape.{least_in, least_term};

use ch_affine::wide::{plus, times};
use ch_affine::{Aff, List, Range, copied_forms};
use std::alloc::{AllocError, Global};

fn least_term(coef: i64, range: Range) -> i128
    requires coef { IsAtMost (2 ^ 60) coef }
    requires range { IsBox range }
    ensures value { result ≡ least_term coef range }
    ensures bound { IsAtMost (2 ^ 114) result }
{
    times(coef, if coef < 0 { range.high } else { range.low })
}

/// The least value of a row over the boxes.
fn least_in(boxes: &[Range], row: &Aff) -> i128
    requires same { length row.now.coefs ≡ length boxes.now }
    requires ranges { All IsBox boxes.now }
    ensures { result ≡ least_in boxes.now row.now }
{
    let coefs = row.coefs.as_slice();
    let mut sum = i128::from(row.constant);
    for k in 0..coefs.len() {
        sum = plus(sum, least_term(coefs[k], boxes[k]));
    }
    sum
}

/// The form with the opposite values.
pub(crate) fn opposite(alloc: Global, form: &Aff) -> Result<Aff, AllocError>
    ensures { IfOk result (λ row. row ≡ opposite form.now) }
{
    let mut coefs = List::with_capacity(alloc, form.coefs.len())?;
    for coef in form.coefs.as_slice() {
        coefs.push(-*coef)?;
    }
    Ok(Aff {
        coefs,
        constant: -form.constant,
    })
}

/// How far the form is above a number.
fn above(alloc: Global, form: &Aff, least: i64) -> Result<Aff, AllocError>
    requires form { IsAtMost (2 ^ 59) form.now.constant }
    requires least { IsAtMost (2 ^ 54) least }
    ensures { IfOk result (λ row. row ≡ above form.now least) }
{
    let coefs = List::from_slice(alloc, form.coefs.as_slice())?;
    Ok(Aff {
        coefs,
        constant: form.constant - least,
    })
}

/// Adds the row which says that the form is at least a number, where this isn't so in the whole
/// boxes.
fn push_bound(
    alloc: Global,
    rows: &mut List<Aff>,
    boxes: &[Range],
    form: &Aff,
    least: i64,
) -> Result<(), AllocError>
    requires long { length form.now.coefs ≡ length boxes.now }
    requires form { IsAtMost (2 ^ 59) form.now.constant }
    requires least { IsAtMost (2 ^ 54) least }
    requires ranges { All IsBox boxes.now }
    requires rows { AllLong (length boxes.now) rows.old }
    ensures long { OnOk result (AllLong (length boxes.now) rows.new) }
    ensures hold { OnOk result ((ys : List ℤ) → IsTrue (lies_in boxes.now ys)
        → all_hold rows.new ys ≡ (all_hold rows.old ys && int_le least (value form.now ys))) }
{
    let row = above(alloc, form, least)?;
    if least_in(boxes, &row) < 0 {
        rows.push(row)?;
    }
    Ok(())
}

/// Adds the rows which say that the form's value lies in the range, where this isn't so in the
/// whole boxes.
fn push_bounds(
    alloc: Global,
    rows: &mut List<Aff>,
    boxes: &[Range],
    form: &Aff,
    range: Range,
) -> Result<(), AllocError>
    requires long { length form.now.coefs ≡ length boxes.now }
    requires form { IsAtMost (2 ^ 59) form.now.constant }
    requires range { IsBox range }
    requires ranges { All IsBox boxes.now }
    requires rows { AllLong (length boxes.now) rows.old }
    ensures long { OnOk result (AllLong (length boxes.now) rows.new) }
    ensures hold { OnOk result ((ys : List ℤ) → IsTrue (lies_in boxes.now ys)
        → all_hold rows.new ys ≡ (all_hold rows.old ys && (int_le range.low (value form.now ys) && int_le (value form.now ys) range.high))) }
{
    push_bound(alloc, rows, boxes, form, range.low)?;
    let opposite = opposite(alloc, form)?;
    push_bound(alloc, rows, boxes, &opposite, -range.high)
}

/// The extra rows, and those which say that the forms' values lie in the ranges, where this isn't
/// so in the whole boxes.
pub(crate) fn conditions(
    alloc: Global,
    boxes: &[Range],
    forms: &[Aff],
    ranges: &[Range],
    extra: &[Aff],
) -> Result<List<Aff>, AllocError>
    requires many { length forms.now ≡ length ranges.now }
    requires long { AllLong (length boxes.now) forms.now }
    requires near { All (λ f. IsAtMost (2 ^ 59) f.constant) forms.now }
    requires extra_long { AllLong (length boxes.now) extra.now }
    requires ranges { All IsBox ranges.now }
    requires boxes { All IsBox boxes.now }
    ensures { IfOk result (λ rows. AreConditions boxes.now forms.now ranges.now extra.now rows) }
{
    let mut rows = copied_forms(alloc, extra)?;
    for k in 0..forms.len() {
        push_bounds(alloc, &mut rows, boxes, &forms[k], ranges[k])?;
    }
    Ok(rows)
}
