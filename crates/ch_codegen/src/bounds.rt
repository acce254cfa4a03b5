//! The bounds that the rows of a system give a loop.

ghost use Rattle.std.specs.Prelude.{◌≡◌, ◌≢◌, ◌≤◌, ◌<◌, ◌^◌, pos, true, false, [], ◌∷◌, length, IfOk, IsTrue, ◌↔◌, slice_index_or, neg_ℤ, unsigned_abs};
ghost use Rattle.std.specs.List.{All};
ghost use Rattle.ch_affine.specs.Affine.{IsAtMost};
ghost use Rattle.ch_affine.specs.Rows.{IsBox};
ghost use Rattle.ch_codegen.specs.Around.{IsLast};
ghost use Rattle.ch_codegen.specs.LeastValues.{HoldEverywhere};
ghost use Rattle.ch_codegen.specs.Bounds.{Adds, AreBounds, AreFit, HasSmallEnd, IsGrown, front, high_bound, low_bound, negated_front};

use crate::everywhere::holds_everywhere;
use crate::fixed::{are_zero, simple};
use crate::tight::with_simple;
use crate::trees::number_bounds;
use ch_affine::{Aff, List, Range};
use ch_code::Bound;
use std::alloc::{AllocError, Global};

/// The lows and highs of a loop.
#[derive(Debug, Drop)]
pub(crate) struct Ends {
    pub(crate) lows: List<Bound>,
    pub(crate) highs: List<Bound>,
}

/// The first `depth` coefficients and the constant.
fn front(alloc: Global, row: &Aff, depth: usize) -> Result<Aff, AllocError>
    requires { depth ≤ length row.now.coefs }
    ensures { IfOk result (λ f. f ≡ front depth row.now) }
{
    let coefs = List::from_slice(alloc, &row.coefs.as_slice()[..depth])?;
    Ok(Aff {
        coefs,
        constant: row.constant,
    })
}

fn negated(number: i64) -> i64
    requires { IsAtMost (2 ^ 60) number }
    ensures { result ≡ neg_ℤ number }
{
    -number
}

/// Their negatives.
fn negated_front(alloc: Global, row: &Aff, depth: usize) -> Result<Aff, AllocError>
    requires { depth ≤ length row.now.coefs }
    ensures { IfOk result (λ f. f ≡ negated_front depth row.now) }
{
    let known = row.coefs.as_slice();
    let mut coefs = List::with_capacity(alloc, depth)?;
    for k in 0..depth {
        coefs.push(negated(known[k]))?;
    }
    let constant = negated(row.constant);
    Ok(Aff { coefs, constant })
}

fn size(coef: i64) -> u32
    requires { unsigned_abs coef < 2 ^ 32 }
    ensures { result ≡ unsigned_abs coef }
{
    coef.unsigned_abs() as u32
}

/// Bounds of a loop, lows or highs, and one more. None of them says what another says already.
fn with_bound(
    alloc: Global,
    is_low: bool,
    bounds: List<Bound>,
    bound: Bound,
) -> Result<List<Bound>, AllocError>
    requires { 1 ≤ bound.divisor }
    ensures { IfOk result (λ all. Adds is_low bounds bound all) }
{
    with_simple(alloc, is_low, bounds, simple(is_low, bound))
}

/// The lows, and one of a row with a positive coefficient of the loop's variable.
fn with_low(
    alloc: Global,
    lows: List<Bound>,
    row: &Aff,
    depth: usize,
    divisor: u32,
) -> Result<List<Bound>, AllocError>
    requires inside { depth ≤ length row.now.coefs }
    requires some { 1 ≤ divisor }
    ensures { IfOk result (λ it. Adds true lows (low_bound depth row.now divisor) it) }
{
    let form = negated_front(alloc, row, depth)?;
    with_bound(alloc, true, lows, Bound { form, divisor })
}

/// The highs, and one of a row with a negative coefficient.
fn with_high(
    alloc: Global,
    highs: List<Bound>,
    row: &Aff,
    depth: usize,
    divisor: u32,
) -> Result<List<Bound>, AllocError>
    requires inside { depth ≤ length row.now.coefs }
    requires some { 1 ≤ divisor }
    ensures { IfOk result (λ it. Adds false highs (high_bound depth row.now divisor) it) }
{
    let form = front(alloc, row, depth)?;
    with_bound(alloc, false, highs, Bound { form, divisor })
}

/// The bounds, and that of a row whose last variable is the loop's.
fn with_row(alloc: Global, ends: Ends, row: &Aff, depth: usize) -> Result<Ends, AllocError>
    requires inside { depth < length row.now.coefs }
    requires last { IsLast depth row.now }
    requires small { unsigned_abs (slice_index_or row.now.coefs depth (pos 0)) < 2 ^ 32 }
    requires fit { AreFit depth ends.lows ends.highs }
    ensures { IfOk result (λ it. IsGrown depth row.now ends.lows ends.highs it.lows it.highs) }
{
    let Ends { lows, highs } = ends;
    let coef = row.coefs.as_slice()[depth];
    let divisor = size(coef);
    if coef > 0 {
        let lows = with_low(alloc, lows, row, depth, divisor)?;
        return Ok(Ends { lows, highs });
    }
    let highs = with_high(alloc, highs, row, depth, divisor)?;
    Ok(Ends { lows, highs })
}

/// Whether the row's last variable is this one.
pub(crate) fn is_last(row: &Aff, depth: usize) -> bool
    requires { depth < length row.now.coefs }
    ensures { IsTrue result ↔ IsLast depth row.now }
{
    let coefs = row.coefs.as_slice();
    coefs[depth] != 0 && are_zero(&coefs[depth + 1..])
}

/// Whether a row gives a bound: its last variable is the loop's, and it doesn't hold everywhere in
/// the box.
fn gives_bound(row: &Aff, boxes: &[Range], depth: usize) -> bool
    requires inside { depth < length boxes.now }
    requires boxes { All IsBox boxes.now }
    requires same { length row.now.coefs ≡ length boxes.now }
    ensures last { result ≡ true → IsLast depth row.now }
    ensures none { result ≡ false → IsLast depth row.now
        → HoldEverywhere (row.now ∷ []) boxes.now }
{
    is_last(row, depth) && !holds_everywhere(row, boxes)
}

/// The bounds of a loop inside `depth` others, from its range and from the rows whose last variable
/// it is. A row that holds everywhere in the box gives none.
pub(crate) fn ends_by(
    alloc: Global,
    rows: &[Aff],
    boxes: &[Range],
    depth: usize,
) -> Result<Ends, AllocError>
    requires inside { depth < length boxes.now }
    requires few { length boxes.now ≤ 4096 }
    requires boxes { All IsBox boxes.now }
    requires same { All (λ f. length f.coefs ≡ length boxes.now) rows.now }
    requires small { All HasSmallEnd rows.now }
    ensures { IfOk result (λ it. AreBounds depth rows.now boxes.now it.lows it.highs) }
{
    let range = boxes[depth];
    let lows = number_bounds(alloc, depth, range.low)?;
    let highs = number_bounds(alloc, depth, range.high)?;
    let mut ends = Ends { lows, highs };
    for row in rows {
        if gives_bound(row, boxes, depth) {
            ends = with_row(alloc, ends, row, depth)?;
        }
    }
    Ok(ends)
}
