//! The ends of loops.

ghost use Rattle.std.specs.Prelude.{◌≡◌, ◌<◌, ◌^◌, pos, ◌+ℤ◌, IsTrue, ◌↔◌};
ghost use Rattle.ch_affine.specs.Affine.{IsAtMost};
ghost use Rattle.ch_nest.specs.Run.{count};
ghost use Rattle.ch_plan.specs.Planned.{high_end, high_of, low_end, low_of, turns_between};

use crate::plan::Limit;
use crate::sums::{wide_negated, wide_value};
use ch_affine::LARGEST_END;

fn low_end(limit: &Limit, point: &[i64]) -> i128
    ensures { result ≡ low_end limit.now point.now }
{
    let value = wide_value(&limit.sum, point);
    if limit.divisor <= 1 {
        value
    } else {
        wide_negated(wide_negated(value).div_euclid(i128::from(limit.divisor)))
    }
}

fn high_end(limit: &Limit, point: &[i64]) -> i128
    ensures { result ≡ high_end limit.now point.now }
{
    let value = wide_value(&limit.sum, point);
    if limit.divisor <= 1 {
        value
    } else {
        value.div_euclid(i128::from(limit.divisor))
    }
}

pub(crate) fn greatest_low(lows: &[Limit], point: &[i64]) -> i128
    ensures { result ≡ low_of lows.now point.now }
{
    match lows {
        [] => 0,
        [only] => low_end(only, point),
        [first, others @ ..] => low_end(first, point).max(greatest_low(others, point)),
    }
}

pub(crate) fn least_high(highs: &[Limit], point: &[i64]) -> i128
    ensures { result ≡ high_of highs.now point.now }
{
    match highs {
        [] => 0,
        [only] => high_end(only, point),
        [first, others @ ..] => high_end(first, point).min(least_high(others, point)),
    }
}

fn is_small(number: i128) -> bool
    ensures { IsTrue result ↔ IsAtMost (2 ^ 54) number }
{
    number.unsigned_abs() <= LARGEST_END as u128
}

fn turns_of(low: i128, high: i128) -> u64
    requires low { IsAtMost (2 ^ 54) low }
    requires high { IsAtMost (2 ^ 54) high }
    ensures { result ≡ count low high }
{
    if high < low {
        0
    } else {
        (high - low + 1) as u64
    }
}

/// How many turns a loop has; none where it isn't between small numbers.
pub(crate) fn turns_between(low: i128, high: i128) -> u64
    ensures { result ≡ turns_between low high }
{
    if is_small(low) && is_small(high) {
        turns_of(low, high)
    } else {
        0
    }
}

#[tactic(auto, using(crate::proofs::Turning::nth_small))]
pub(crate) fn nth_between(low: i128, high: i128, k: u64) -> i64
    requires { k < turns_between low high }
    ensures { result ≡ low +ℤ pos k }
{
    (low + i128::from(k)) as i64
}
