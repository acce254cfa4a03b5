//! Sums and products in 128 bits, in a range where none of them wraps.

ghost use Rattle.std.specs.Prelude.{◌≡◌, ◌≤◌, ◌<◌, ◌+◌, ◌^◌, ◌+ℤ◌, ◌*ℤ◌, unsigned_abs};
ghost use Rattle.ch_affine.specs.Affine.{IsAtMost};

/// A coefficient times a variable's value.
pub fn times(coef: i64, x: i64) -> i128
    requires coef_small { IsAtMost (2 ^ 60) coef }
    requires x_small { IsAtMost (2 ^ 54) x }
    ensures value { result ≡ coef *ℤ x }
    ensures bound { IsAtMost (2 ^ 114) result }
{
    coef as i128 * x as i128
}

pub fn plus(sum: i128, more: i128) -> i128
    requires fits { unsigned_abs sum + unsigned_abs more < 2 ^ 127 }
    ensures value { result ≡ sum +ℤ more }
    ensures bound { unsigned_abs result ≤ unsigned_abs sum + unsigned_abs more }
{
    sum + more
}

/// Any factor times a coefficient.
pub fn scaled(factor: i64, coef: i64) -> i128
    requires coef_small { IsAtMost (2 ^ 60) coef }
    ensures value { result ≡ factor *ℤ coef }
    ensures bound { IsAtMost (2 ^ 123) result }
{
    factor as i128 * coef as i128
}
