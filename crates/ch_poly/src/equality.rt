//! Narrowing by equalities that follow from the rows, each of them checked before it is used.

ghost use Rattle.std.specs.Prelude.{◌≡◌, ◌≤◌, ◌<◌, ◌^◌, ◌+ℤ◌, pos, length};
ghost use Rattle.std.specs.Prelude.{IsTrue, IfSome, MatchOption, slice_set};
ghost use Rattle.std.specs.List.{All};
ghost use Rattle.ch_affine.specs.Affine.{IsAtMost};
ghost use Rattle.ch_poly.specs.Boxes.{IsBoxed, Inside, at, widths};
ghost use Rattle.ch_poly.specs.Goals.{Reaches, Keeps, IsEmpty};
ghost use Rattle.ch_poly.specs.Mixes.{AreOpposite, IsEqualTo, IsForced};

use crate::equalities::{equalities, load};
use crate::hollow::misses;
use crate::mix::{mix, narrow_by};
use crate::negative::are_negative;
use crate::search::one_more;
use ch_affine::Aff;

/// The numbers of a range that are passed at once.
const STEPS: u32 = 256;

/// A sum of rows that has one value wherever the rows hold, and the negative of both.
#[derive(Drop)]
struct Equality<'a> {
    coefs: &'a [i64],
    negatives: &'a [i64],
    value: i128,
    opposite: i128,
}

fn cancel(b: i128, c: i128) -> bool
    ensures { IsTrue result → b +ℤ c ≡ pos 0 }
{
    match b.checked_add(c) {
        Some(sum) => sum == 0,
        None => false,
    }
}

/// Leaves the coefficients of an equality that was found, and of its negative, and answers their
/// values. None where it isn't one, or a number is too large.
fn values(
    rows: &[Aff],
    line: usize,
    count: usize,
    sums: &mut [i64],
    others: &mut [i64],
    space: &mut [i64],
) -> Option<(i128, i128)>
    requires same { All (λ f. length f.coefs ≡ length sums.old) rows.now }
    requires others { length others.old ≡ length sums.old }
    ensures small { All (IsAtMost (2 ^ 60)) sums.new }
    ensures others_small { All (IsAtMost (2 ^ 60)) others.new }
    ensures opposite { IfSome result (λ v. AreOpposite sums.new others.new v.0 v.1) }
    ensures forced { IfSome result (λ v. IsForced rows.now sums.new v.0) }
{
    load(sums.len(), rows.len(), count, line, false, space);
    let by_sum = mix(rows, space, sums);
    load(sums.len(), rows.len(), count, line, true, space);
    let by_other = mix(rows, space, others);
    let Some(value) = by_sum else {
        return None;
    };
    let Some(opposite) = by_other else {
        return None;
    };
    if cancel(value, opposite) && are_negative(sums, others) {
        Some((value, opposite))
    } else {
        None
    }
}

/// Narrows the ranges to where the sum can have its value, from both sides.
fn narrow_both(e: &Equality, lows: &mut [i64], highs: &mut [i64]) -> Option<bool>
    requires same { length e.now.coefs.now ≡ length lows.old }
    requires small { All (IsAtMost (2 ^ 60)) e.now.coefs.now }
    requires others_small { All (IsAtMost (2 ^ 60)) e.now.negatives.now }
    requires opposite { AreOpposite
        e.now.coefs.now e.now.negatives.now e.now.value e.now.opposite }
    requires boxed { IsBoxed lows.old highs.old }
    ensures boxed { IsBoxed lows.new highs.new }
    ensures inside { Inside lows.old highs.old lows.new highs.new }
    ensures keeps { MatchOption result
        (IsEmpty (IsEqualTo e.now.coefs.now e.now.value) lows.old highs.old)
        (λ changed. Keeps (IsEqualTo e.now.coefs.now e.now.value)
        lows.old highs.old lows.new highs.new) }
    ensures narrower { widths lows.new highs.new ≤ widths lows.old highs.old }
{
    let Some(by_value) = narrow_by(e.coefs, e.value, lows, highs) else {
        return None;
    };
    let Some(by_opposite) = narrow_by(e.negatives, e.opposite, lows, highs) else {
        return None;
    };
    Some(by_value | by_opposite)
}

/// Whether the sum has its value at no point of the box whose number at `k` is the lowest.
fn misses_lowest(e: &Equality, k: usize, lows: &[i64], highs: &mut [i64]) -> bool
    requires same { length e.now.coefs.now ≡ length lows.now }
    requires small { All (IsAtMost (2 ^ 60)) e.now.coefs.now }
    requires boxed { IsBoxed lows.now highs.old }
    requires within { k < length lows.now }
    ensures highs { highs.new ≡ highs.old }
    ensures empty { IsTrue result → IsEmpty (IsEqualTo e.now.coefs.now e.now.value)
        lows.now (slice_set highs.old k (at lows.now k)) }
{
    let high = highs[k];
    highs[k] = lows[k];
    let missed = misses(e.coefs, e.value, lows, highs);
    highs[k] = high;
    missed
}

/// Raises the low of variable `k` past numbers that the equality's divisor excludes.
fn raise(e: &Equality, k: usize, lows: &mut [i64], highs: &mut [i64]) -> Option<bool>
    requires same { length e.now.coefs.now ≡ length lows.old }
    requires small { All (IsAtMost (2 ^ 60)) e.now.coefs.now }
    requires boxed { IsBoxed lows.old highs.old }
    requires within { k < length lows.old }
    ensures boxed { IsBoxed lows.new highs.new }
    ensures inside { Inside lows.old highs.old lows.new highs.new }
    ensures keeps { MatchOption result
        (IsEmpty (IsEqualTo e.now.coefs.now e.now.value) lows.old highs.old)
        (λ changed. Keeps (IsEqualTo e.now.coefs.now e.now.value)
        lows.old highs.old lows.new highs.new) }
    ensures narrower { widths lows.new highs.new ≤ widths lows.old highs.old }
{
    let mut changed = false;
    for _ in 0..STEPS {
        if !misses_lowest(e, k, lows, highs) {
            return Some(changed);
        }
        if lows[k] == highs[k] {
            return None;
        }
        lows[k] = one_more(lows[k]);
        changed = true;
    }
    Some(changed)
}

/// Narrows the ranges by one equality, and then raises the low of variable `k`.
fn narrow_by_equality(e: &Equality, k: usize, lows: &mut [i64], highs: &mut [i64]) -> Option<bool>
    requires same { length e.now.coefs.now ≡ length lows.old }
    requires small { All (IsAtMost (2 ^ 60)) e.now.coefs.now }
    requires others_small { All (IsAtMost (2 ^ 60)) e.now.negatives.now }
    requires opposite { AreOpposite
        e.now.coefs.now e.now.negatives.now e.now.value e.now.opposite }
    requires boxed { IsBoxed lows.old highs.old }
    requires within { k < length lows.old }
    ensures boxed { IsBoxed lows.new highs.new }
    ensures inside { Inside lows.old highs.old lows.new highs.new }
    ensures keeps { MatchOption result
        (IsEmpty (IsEqualTo e.now.coefs.now e.now.value) lows.old highs.old)
        (λ changed. Keeps (IsEqualTo e.now.coefs.now e.now.value)
        lows.old highs.old lows.new highs.new) }
    ensures narrower { widths lows.new highs.new ≤ widths lows.old highs.old }
{
    let Some(narrowed) = narrow_both(e, lows, highs) else {
        return None;
    };
    if misses(e.coefs, e.value, lows, highs) {
        return None;
    }
    let Some(raised) = raise(e, k, lows, highs) else {
        return None;
    };
    Some(narrowed | raised)
}

/// Narrows the ranges by equalities that follow from the rows, and raises the low of variable `k`
/// past numbers that such an equality excludes. None where no point of the box meets the rows.
/// Without enough space it changes nothing.
pub fn narrow_by_equalities(
    rows: &[Aff],
    k: usize,
    lows: &mut [i64],
    highs: &mut [i64],
    space: &mut [i64],
) -> Option<bool>
    requires same { All (λ f. length f.coefs ≡ length lows.old) rows.now }
    requires boxed { IsBoxed lows.old highs.old }
    requires within { k < length lows.old }
    ensures boxed { IsBoxed lows.new highs.new }
    ensures inside { Inside lows.old highs.old lows.new highs.new }
    ensures keeps { MatchOption result
        (IsEmpty (Reaches (pos 0) rows.now) lows.old highs.old)
        (λ changed. Keeps (Reaches (pos 0) rows.now) lows.old highs.old lows.new highs.new) }
    ensures narrower { widths lows.new highs.new ≤ widths lows.old highs.old }
{
    let count = lows.len();
    if space.len() < count {
        return Some(false);
    }
    let (sums, others) = space.split_at_mut(count);
    if others.len() < count {
        return Some(false);
    }
    let (negatives, rest) = others.split_at_mut(count);
    let mut changed = false;
    let lines = equalities(rows, lows, highs, rest);
    for line in 0..lines {
        let Some((value, opposite)) = values(rows, line, lines, sums, negatives, rest) else {
            continue;
        };
        let e = Equality {
            coefs: sums,
            negatives,
            value,
            opposite,
        };
        match narrow_by_equality(&e, k, lows, highs) {
            None => return None,
            Some(cut) => changed = changed || cut,
        }
    }
    Some(changed)
}
