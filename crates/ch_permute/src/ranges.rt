//! The ranges of the new loop values.

ghost use Rattle.std.specs.Prelude.{◌≡◌, ◌+◌, ◌*◌, ◌≤◌, ◌<◌, ◌^◌, ℕ, ◌+ℤ◌, length};
ghost use Rattle.std.specs.Prelude.{slice_index_or, slice_set, IfOk, IsTrue};
ghost use Rattle.ch_moved.specs.Room.{origin_range};
ghost use Rattle.std.specs.List.{All};
ghost use Rattle.ch_affine.specs.Affine.{form, IsAtMost};
ghost use Rattle.ch_nest.specs.Shape.{greatest_term, least_term};
ghost use Rattle.ch_permute.specs.Lowered.{greater};
ghost use Rattle.ch_permute.specs.Permuted.{is_permutation};
ghost use Rattle.ch_permute.specs.Turned.{source, turned_boxes};
ghost use Rattle.ch_space.specs.Keeps.{IsBounded};

use crate::ordering::source;
use ch_affine::{List, Range};
use std::alloc::{AllocError, Global};

/// The range of the numbers of a range, each times the amount.
fn scaled(range: Range, amount: i64) -> Range
    requires range { IsBounded (2 ^ 51) range }
    requires amount { IsAtMost 64 amount }
    ensures value { result
        ≡ record { low = least_term amount range; high = greatest_term amount range } }
    ensures near { IsBounded (2 ^ 57) result }
{
    let (low, high) = (amount * range.low, amount * range.high);
    if amount < 0 {
        Range {
            low: high,
            high: low,
        }
    } else {
        Range { low, high }
    }
}

/// The range of the sums of two numbers, one of each range.
fn plus(a: Range, b: Range) -> Range
    requires a { IsBounded (2 ^ 61) a }
    requires b { IsBounded (2 ^ 61) b }
    ensures { result ≡ record { low = a.low +ℤ b.low; high = a.high +ℤ b.high } }
{
    Range {
        low: a.low + b.low,
        high: a.high + b.high,
    }
}

/// The range of a loop value once `amount`, and the other values times their amounts, are added to
/// it.
fn greater(range: Range, amounts: &[i64], amount: i64, boxes: &[Range]) -> Range
    requires few { length amounts.now ≤ 10 }
    requires boxes { length amounts.now ≤ length boxes.now }
    requires near { All (IsBounded (2 ^ 51)) boxes.now }
    requires range { IsBounded (2 ^ 51) range }
    requires small { All (IsAtMost 64) amounts.now }
    requires amount { IsAtMost (2 ^ 20) amount }
    ensures { result ≡ greater (form amounts.now amount) boxes.now range }
{
    let mut sum = plus(
        range,
        Range {
            low: amount,
            high: amount,
        },
    );
    for k in 0..amounts.len() {
        sum = plus(sum, scaled(boxes[k], amounts[k]));
    }
    sum
}

/// The ranges with that of `level` made greater.
pub(crate) fn greater_boxes(
    alloc: Global,
    boxes: &[Range],
    level: usize,
    amounts: &[i64],
    amount: i64,
) -> Result<List<Range>, AllocError>
    requires level { level < length boxes.now }
    requires few { length amounts.now ≤ 10 }
    requires boxes { length amounts.now ≤ length boxes.now }
    requires near { All (IsBounded (2 ^ 51)) boxes.now }
    requires small { All (IsAtMost 64) amounts.now }
    requires amount { IsAtMost (2 ^ 20) amount }
    ensures { IfOk result (λ raised. raised ≡ slice_set boxes.now level
        (greater (form amounts.now amount) boxes.now (slice_index_or boxes.now level origin_range))) }
{
    let mut raised = List::from_slice(alloc, boxes)?;
    let range = greater(boxes[level], amounts, amount, boxes);
    raised.as_mut_slice()[level] = range;
    Ok(raised)
}

/// The ranges of levels in another order.
pub(crate) fn turned_boxes(
    alloc: Global,
    boxes: &[Range],
    order: &[i64],
) -> Result<List<Range>, AllocError>
    requires permutation { IsTrue (is_permutation order.now) }
    requires below { (k : ℕ) → k < length boxes.now → source order.now k < length boxes.now }
    ensures { IfOk result (λ turned. turned ≡ turned_boxes (source order.now) boxes.now) }
{
    let mut turned = List::new(alloc);
    for k in 0..boxes.len() {
        turned.push(boxes[source(order, k)])?;
    }
    Ok(turned)
}
