//! The boxes of loops, and the least and greatest values of forms over them.

ghost use Rattle.std.specs.Prelude.{◌≡◌, ◌≤◌, ◌<◌, ◌^◌, ◌*◌, ◌+◌, ◌+ℤ◌, ◌*ℤ◌};
ghost use Rattle.std.specs.Prelude.{◌∷◌, [], ◌++◌, length, unsigned_abs, take};
ghost use Rattle.std.specs.Prelude.{map, IsTrue, MatchOption, true, false};
ghost use Rattle.std.specs.List.{All, list_all};
ghost use Rattle.ch_affine.specs.Affine.{IsAtMost};
ghost use Rattle.ch_nest.specs.Limits.{deepest, most_affine};
ghost use Rattle.ch_nest.specs.Run.{least};
ghost use Rattle.ch_nest.specs.Shape.{box_of, coefs_fit, greatest_in, greatest_sum};
ghost use Rattle.ch_nest.specs.Shape.{greatest_term, high_end, is_at_most, is_small};
ghost use Rattle.ch_nest.specs.Shape.{least_in, least_sum, least_term, low_end, IsSmall};

use crate::limits::MOST_AFFINE;
use ch_affine::{Aff, Range};

fn least_term(coef: i64, range: Range) -> i128
    requires coef { IsAtMost most_affine coef }
    requires range { IsTrue (is_small range) }
    ensures value { result ≡ least_term coef range }
    ensures bound { IsAtMost (2 ^ 60) result }
{
    times(coef, if coef < 0 { range.high } else { range.low })
}

fn greatest_term(coef: i64, range: Range) -> i128
    requires coef { IsAtMost most_affine coef }
    requires range { IsTrue (is_small range) }
    ensures value { result ≡ greatest_term coef range }
    ensures bound { IsAtMost (2 ^ 60) result }
{
    times(coef, if coef < 0 { range.low } else { range.high })
}

fn times(coef: i64, x: i64) -> i128
    requires coef { IsAtMost most_affine coef }
    requires number { IsAtMost most_affine x }
    ensures value { result ≡ coef *ℤ x }
    ensures bound { IsAtMost (2 ^ 60) result }
{
    i128::from(coef) * i128::from(x)
}

fn plus(x: i128, y: i128) -> i128
    requires { unsigned_abs x + unsigned_abs y < 2 ^ 100 }
    ensures value { result ≡ x +ℤ y }
    ensures bound { unsigned_abs result ≤ unsigned_abs x + unsigned_abs y }
{
    x + y
}

#[tactic(auto, using(crate::proofs::Rests::all_rest))]
fn least_sum(coefs: &[i64], boxes: &[Range]) -> i128
    requires few { length coefs.now ≤ deepest }
    requires coefs { IsTrue (list_all (is_at_most most_affine) coefs.now) }
    requires boxes { All IsSmall boxes.now }
    ensures value { result ≡ least_sum coefs.now boxes.now }
    ensures bound { unsigned_abs result ≤ length coefs.now * 2 ^ 60 }
{
    match coefs {
        [] => 0,
        [coef, others @ ..] => match boxes {
            [] => 0,
            [range, outer @ ..] => plus(least_term(*coef, *range), least_sum(others, outer)),
        },
    }
}

#[tactic(auto, using(crate::proofs::Rests::all_rest))]
fn greatest_sum(coefs: &[i64], boxes: &[Range]) -> i128
    requires few { length coefs.now ≤ deepest }
    requires coefs { IsTrue (list_all (is_at_most most_affine) coefs.now) }
    requires boxes { All IsSmall boxes.now }
    ensures value { result ≡ greatest_sum coefs.now boxes.now }
    ensures bound { unsigned_abs result ≤ length coefs.now * 2 ^ 60 }
{
    match coefs {
        [] => 0,
        [coef, others @ ..] => match boxes {
            [] => 0,
            [range, outer @ ..] => plus(greatest_term(*coef, *range), greatest_sum(others, outer)),
        },
    }
}

/// The least value of a form over boxes.
pub fn least_in(boxes: &[Range], form: &Aff) -> i128
    requires few { length boxes.now ≤ deepest }
    requires form { IsTrue (coefs_fit (length boxes.now) form.now) }
    requires boxes { All IsSmall boxes.now }
    ensures value { result ≡ least_in boxes.now form.now }
    ensures bound { IsAtMost (2 ^ 64) result }
{
    plus(
        i128::from(form.constant),
        least_sum(form.coefs.as_slice(), boxes),
    )
}

/// The greatest value of a form over boxes.
pub fn greatest_in(boxes: &[Range], form: &Aff) -> i128
    requires few { length boxes.now ≤ deepest }
    requires form { IsTrue (coefs_fit (length boxes.now) form.now) }
    requires boxes { All IsSmall boxes.now }
    ensures value { result ≡ greatest_in boxes.now form.now }
    ensures bound { IsAtMost (2 ^ 64) result }
{
    plus(
        i128::from(form.constant),
        greatest_sum(form.coefs.as_slice(), boxes),
    )
}

/// Where the box of a loop begins.
#[tactic(auto, using(crate::proofs::Rests::all_rest))]
pub fn low_end(boxes: &[Range], lows: &[Aff]) -> i128
    requires few { length boxes.now ≤ deepest }
    requires lows { IsTrue (list_all (coefs_fit (length boxes.now)) lows.now) }
    requires boxes { All IsSmall boxes.now }
    ensures { result ≡ low_end boxes.now lows.now }
{
    match lows {
        [] => 0,
        [only] => least_in(boxes, only),
        [first, rest @ ..] => least_in(boxes, first).max(low_end(boxes, rest)),
    }
}

/// The least of the greatest values of the highs.
#[tactic(auto, using(crate::proofs::Rests::all_rest))]
pub fn least_of_greatest(boxes: &[Range], highs: &[Aff]) -> i128
    requires few { length boxes.now ≤ deepest }
    requires highs { IsTrue (list_all (coefs_fit (length boxes.now)) highs.now) }
    requires boxes { All IsSmall boxes.now }
    ensures { result ≡ least (map (greatest_in boxes.now) highs.now) }
{
    match highs {
        [] => 0,
        [only] => greatest_in(boxes, only),
        [first, rest @ ..] => greatest_in(boxes, first).min(least_of_greatest(boxes, rest)),
    }
}

fn is_near(z: i128) -> bool
    ensures { result ≡ is_at_most most_affine z }
{
    z.unsigned_abs() <= u128::from(MOST_AFFINE)
}

fn small_range(low: i128, high: i128) -> Option<Range>
    ensures { MatchOption result (is_small (record { low = low; high = high }) ≡ false) (λ r.
        (r ≡ record { low = low; high = high }) × IsSmall r) }
{
    if !is_near(low) || !is_near(high) {
        return None;
    }
    Some(Range {
        low: low as i64,
        high: high as i64,
    })
}

/// The box of a loop, where its ends keep the limit of affine text.
pub fn small_box(boxes: &[Range], lows: &[Aff], highs: &[Aff]) -> Option<Range>
    requires few { length boxes.now ≤ deepest }
    requires lows { IsTrue (list_all (coefs_fit (length boxes.now)) lows.now) }
    requires highs { IsTrue (list_all (coefs_fit (length boxes.now)) highs.now) }
    requires boxes { All IsSmall boxes.now }
    ensures { MatchOption result (is_small (box_of boxes.now lows.now highs.now) ≡ false) (λ r.
        (r ≡ box_of boxes.now lows.now highs.now) × IsSmall r) }
{
    let low = low_end(boxes, lows);
    let high = low.max(least_of_greatest(boxes, highs));
    small_range(low, high)
}

/// The boxes, and one more inside them.
pub fn extended_boxes(boxes: &[Range], inner: Range) -> [Range; 6]
    requires { length boxes.now < deepest }
    ensures { take (length boxes.now + 1) result ≡ boxes.now ++ inner ∷ [] }
{
    let mut all = [inner; 6];
    all[..boxes.len()].copy_from_slice(boxes);
    all[boxes.len()] = inner;
    all
}
