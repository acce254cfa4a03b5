//! Exact values of affine forms at any point: sums that may be too large for 128 bits.

ghost use Rattle.std.specs.Prelude.{◌≡◌, ◌≤◌, ◌+◌, ◌^◌, ◌+ℤ◌, ◌*ℤ◌};
ghost use Rattle.std.specs.Prelude.{pos, unsigned_abs, ◌↔◌, IsTrue};
ghost use Rattle.ch_affine.specs.Affine.{dot};
ghost use Rattle.ch_nest.specs.Run.{modulo, sub_value};
ghost use Rattle.ch_order.specs.WideNumbers.{IsLowPart, number};

use ch_nest::Sub;

/// 2^64, the weight of the upper part.
const PART: i128 = 1 << 64;

/// A number in two parts, `high * 2^64 + low`, where `low` is from 0 to 2^64 - 1.
#[derive(Clone, Copy)]
pub(crate) struct WideNumber {
    pub high: i128,
    pub low: i128,
}

/// The sum. The upper part grows by at most 2^62 + 2, so that there is room for as many terms as a
/// slice has.
fn plus(sum: WideNumber, more: i128) -> WideNumber
    requires low { IsLowPart sum.low }
    requires room { unsigned_abs sum.high ≤ 2 ^ 126 + 2 ^ 66 }
    requires small { unsigned_abs more ≤ 2 ^ 126 }
    ensures value { number result.high result.low ≡ number sum.high sum.low +ℤ more }
    ensures low { IsLowPart result.low }
    ensures high { unsigned_abs result.high ≤ unsigned_abs sum.high + (2 ^ 62 + 2) }
{
    let total = sum.low + more;
    let high = sum.high + total.div_euclid(PART);
    let low = total.rem_euclid(PART);
    WideNumber { high, low }
}

/// The product, whatever the factors.
fn product(a: i64, b: i64) -> i128
    ensures value { result ≡ a *ℤ b }
    ensures bound { unsigned_abs result ≤ 2 ^ 126 }
{
    a as i128 * b as i128
}

/// The constant and, as far as both lists go, each coefficient times its variable.
fn weighed(constant: i64, coefs: &[i64], point: &[i64]) -> WideNumber
    ensures value { number result.high result.low ≡ constant +ℤ dot coefs.now point.now }
    ensures low { IsLowPart result.low }
{
    let mut sum = plus(WideNumber { high: 0, low: 0 }, constant as i128);
    let terms = coefs.len().min(point.len());
    for k in 0..terms {
        sum = plus(sum, product(coefs[k], point[k]));
    }
    sum
}

/// The product of two numbers of magnitude at most 2^32.
fn small_product(a: i128, b: i128) -> i128
    requires first { unsigned_abs a ≤ 2 ^ 32 }
    requires second { unsigned_abs b ≤ 2 ^ 32 }
    ensures value { result ≡ a *ℤ b }
    ensures bound { unsigned_abs result ≤ 2 ^ 64 }
{
    a * b
}

/// The remainder from 0 on; the number itself where the modulus is 0.
fn reduced(value: WideNumber, modulus: u32) -> WideNumber
    requires low { IsLowPart value.low }
    ensures value { number result.high result.low ≡ modulo modulus (number value.high value.low) }
    ensures low { IsLowPart result.low }
{
    if modulus == 0 {
        return value;
    }
    let divisor = modulus as i128;
    let weight = PART.rem_euclid(divisor);
    let rest = small_product(value.high.rem_euclid(divisor), weight) + value.low;
    WideNumber {
        high: 0,
        low: rest.rem_euclid(divisor),
    }
}

/// The value of a subscript at a point, of which there may be too few or too many numbers.
pub(crate) fn subscript(sub: &Sub, point: &[i64]) -> WideNumber
    ensures value { number result.high result.low ≡ sub_value point.now sub.now }
    ensures low { IsLowPart result.low }
{
    let form = &sub.form;
    reduced(
        weighed(form.constant, form.coefs.as_slice(), point),
        sub.modulus,
    )
}

/// Whether both are one number: its parts are fixed by it.
pub(crate) fn same_number(a: WideNumber, b: WideNumber) -> bool
    requires first { IsLowPart a.low }
    requires second { IsLowPart b.low }
    ensures { IsTrue result ↔ (number a.high a.low ≡ number b.high b.low) }
{
    a.high == b.high && a.low == b.low
}
