//! The least and the greatest value of a form over a box.

ghost use Rattle.std.specs.Prelude.{◌≡◌, ◌≤◌, ◌^◌, ◌*◌, ◌+◌, ◌+ℤ◌, length, unsigned_abs};
ghost use Rattle.std.specs.List.{All};
ghost use Rattle.ch_affine.specs.Affine.{IsAtMost};
ghost use Rattle.ch_affine.specs.Corners.{IsGreatestIn, IsLeastIn, greatest_in, greatest_sum};
ghost use Rattle.ch_affine.specs.Corners.{greatest_term, least_in, least_sum, least_term};
ghost use Rattle.ch_affine.specs.Rows.{IsBox};

use crate::aff::Aff;
use crate::system::Range;
use crate::wide::{plus, times};

/// The least value of a coefficient times a number of the range.
pub fn least_term(coef: i64, range: Range) -> i128
    requires coef { IsAtMost (2 ^ 60) coef }
    requires range { IsBox range }
    ensures value { result ≡ least_term coef range }
    ensures bound { IsAtMost (2 ^ 114) result }
{
    times(coef, if coef < 0 { range.high } else { range.low })
}

/// The greatest value of a coefficient times a number of the range.
pub fn greatest_term(coef: i64, range: Range) -> i128
    requires coef { IsAtMost (2 ^ 60) coef }
    requires range { IsBox range }
    ensures value { result ≡ greatest_term coef range }
    ensures bound { IsAtMost (2 ^ 114) result }
{
    times(coef, if coef < 0 { range.low } else { range.high })
}

fn least_total(constant: i64, coefs: &[i64], boxes: &[Range]) -> i128
    requires same { length coefs.now ≡ length boxes.now }
    requires few { length coefs.now ≤ 4096 }
    requires large { IsAtMost (2 ^ 60) constant }
    requires coefs_small { All (IsAtMost (2 ^ 60)) coefs.now }
    requires boxes { All IsBox boxes.now }
    ensures value { result ≡ constant +ℤ least_sum coefs.now boxes.now }
    ensures bound { unsigned_abs result ≤ 2 ^ 60 + length coefs.now * 2 ^ 114 }
{
    let mut sum = i128::from(constant);
    for k in 0..coefs.len() {
        sum = plus(sum, least_term(coefs[k], boxes[k]));
    }
    sum
}

fn greatest_total(constant: i64, coefs: &[i64], boxes: &[Range]) -> i128
    requires same { length coefs.now ≡ length boxes.now }
    requires few { length coefs.now ≤ 4096 }
    requires large { IsAtMost (2 ^ 60) constant }
    requires coefs_small { All (IsAtMost (2 ^ 60)) coefs.now }
    requires boxes { All IsBox boxes.now }
    ensures value { result ≡ constant +ℤ greatest_sum coefs.now boxes.now }
    ensures bound { unsigned_abs result ≤ 2 ^ 60 + length coefs.now * 2 ^ 114 }
{
    let mut sum = i128::from(constant);
    for k in 0..coefs.len() {
        sum = plus(sum, greatest_term(coefs[k], boxes[k]));
    }
    sum
}

/// The least value of a form at the integer points of a box, which has a range for each variable.
pub fn least_in(boxes: &[Range], form: &Aff) -> i128
    requires same { length form.now.coefs ≡ length boxes.now }
    requires boxes { All IsBox boxes.now }
    ensures value { result ≡ least_in boxes.now form.now }
    ensures least { IsLeastIn boxes.now form.now result }
    ensures bound { unsigned_abs result ≤ 2 ^ 60 + length boxes.now * 2 ^ 114 }
{
    least_total(form.constant, form.coefs.as_slice(), boxes)
}

/// The greatest value of a form at the integer points of a box, which has a range for each
/// variable.
pub fn greatest_in(boxes: &[Range], form: &Aff) -> i128
    requires same { length form.now.coefs ≡ length boxes.now }
    requires boxes { All IsBox boxes.now }
    ensures value { result ≡ greatest_in boxes.now form.now }
    ensures greatest { IsGreatestIn boxes.now form.now result }
    ensures bound { unsigned_abs result ≤ 2 ^ 60 + length boxes.now * 2 ^ 114 }
{
    greatest_total(form.constant, form.coefs.as_slice(), boxes)
}
