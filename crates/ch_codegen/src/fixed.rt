//! Bounds that are numbers.

ghost use Rattle.std.specs.Prelude.{◌≡◌, ◌⊎◌, ◌≤◌, ◌<◌, ◌^◌, ◌≤ℤ◌, pos, neg_ℤ, true, false, length, IfSome, IsTrue, ◌↔◌};
ghost use Rattle.std.specs.List.{All};
ghost use Rattle.std.specs.Int.{int_div_euclid};
ghost use Rattle.ch_affine.specs.Affine.{IsAtMost};
ghost use Rattle.ch_timed.specs.Members.{Each};
ghost use Rattle.ch_codegen.specs.Bounds.{AreFixed, HaveDivisors, IsFixedHigh, IsFixedLow, IsNumber, Replaces, end_of};

use crate::bounds::Ends;
use ch_affine::{Aff, Range};
use ch_code::Bound;

/// A quotient, rounded up.
fn rounded_up(number: i64, divisor: u32) -> i64
    requires small { IsAtMost (2 ^ 60) number }
    requires some { 1 ≤ divisor }
    ensures value { result ≡ neg_ℤ (int_div_euclid (neg_ℤ number) (pos divisor)) }
    ensures small { IsAtMost (2 ^ 60) result }
{
    -rounded_down(-number, divisor)
}

/// A quotient, rounded down.
fn rounded_down(number: i64, divisor: u32) -> i64
    requires small { IsAtMost (2 ^ 60) number }
    requires some { 1 ≤ divisor }
    ensures value { result ≡ int_div_euclid number (pos divisor) }
    ensures small { IsAtMost (2 ^ 60) result }
{
    number.div_euclid(i64::from(divisor))
}

pub(crate) fn are_zero(coefs: &[i64]) -> bool
    ensures { IsTrue result ↔ All (λ c. c ≡ pos 0) coefs.now }
{
    coefs.iter().all(|coef| *coef == 0)
}

/// Whether the form is a number.
fn is_number(bound: &Bound) -> bool
    ensures { IsTrue result → IsNumber bound.now }
{
    are_zero(bound.form.coefs.as_slice())
}

/// Whether each form is a number.
fn are_numbers(bounds: &[Bound]) -> bool
    ensures { IsTrue result → All IsNumber bounds.now }
{
    for bound in bounds {
        if !is_number(bound) {
            return false;
        }
    }
    true
}

fn low_of(bound: &Bound) -> i64
    requires { 1 ≤ bound.now.divisor }
    ensures value { result ≡ end_of true bound.now }
    ensures small { IsAtMost (2 ^ 60) result }
{
    rounded_up(bound.form.constant, bound.divisor)
}

fn high_of(bound: &Bound) -> i64
    requires { 1 ≤ bound.now.divisor }
    ensures value { result ≡ end_of false bound.now }
    ensures small { IsAtMost (2 ^ 60) result }
{
    rounded_down(bound.form.constant, bound.divisor)
}

fn greater(ours: i64, theirs: i64) -> i64
    ensures ours { ours ≤ℤ result }
    ensures theirs { theirs ≤ℤ result }
    ensures one { (result ≡ ours) ⊎ (result ≡ theirs) }
{
    if ours < theirs { theirs } else { ours }
}

pub(crate) fn lesser(ours: i64, theirs: i64) -> i64
    ensures ours { result ≤ℤ ours }
    ensures theirs { result ≤ℤ theirs }
    ensures one { (result ≡ ours) ⊎ (result ≡ theirs) }
{
    if theirs < ours { theirs } else { ours }
}

/// The greatest of some lows that are numbers.
fn greatest_low(lows: &[Bound]) -> i64
    requires some { 0 < length lows.now }
    requires numbers { All IsNumber lows.now }
    requires divisors { HaveDivisors lows.now }
    ensures { IsFixedLow lows.now result }
{
    let mut low = low_of(&lows[0]);
    for bound in lows {
        low = greater(low, low_of(bound));
    }
    low
}

/// The least of some highs that are numbers.
fn least_high(highs: &[Bound]) -> i64
    requires some { 0 < length highs.now }
    requires numbers { All IsNumber highs.now }
    requires divisors { HaveDivisors highs.now }
    ensures { IsFixedHigh highs.now result }
{
    let mut high = high_of(&highs[0]);
    for bound in highs {
        high = lesser(high, high_of(bound));
    }
    high
}

fn end_of(is_low: bool, bound: &Bound) -> i64
    requires { 1 ≤ bound.now.divisor }
    ensures value { result ≡ end_of is_low bound.now }
    ensures small { IsAtMost (2 ^ 60) result }
{
    if is_low {
        low_of(bound)
    } else {
        high_of(bound)
    }
}

/// The bound of this number, in the place of one whose form is a number.
fn with_number(bound: Bound, number: i64) -> Bound
    requires { IsAtMost (2 ^ 60) number }
    ensures coefs { result.form.coefs ≡ bound.form.coefs }
    ensures constant { result.form.constant ≡ number }
    ensures divisor { result.divisor ≡ 1 }
{
    let Bound { form, .. } = bound;
    let Aff { coefs, .. } = form;
    Bound {
        form: Aff {
            coefs,
            constant: number,
        },
        divisor: 1,
    }
}

/// The bound, without a divisor where its form is a number.
#[tactic(auto, using(crate::proofs::Said::replaces_itself))]
pub(crate) fn simple(is_low: bool, bound: Bound) -> Bound
    requires { 1 ≤ bound.divisor }
    ensures { Replaces is_low bound result }
{
    if !is_number(&bound) {
        return bound;
    }
    let number = end_of(is_low, &bound);
    with_number(bound, number)
}

/// The range between bounds that are numbers, or None where some aren't.
pub(crate) fn fixed_range(ends: &Ends) -> Option<Range>
    requires some_low { 0 < length ends.now.lows }
    requires some_high { 0 < length ends.now.highs }
    requires lows { HaveDivisors ends.now.lows }
    requires highs { HaveDivisors ends.now.highs }
    ensures { IfSome result (λ r. AreFixed ends.now.lows ends.now.highs r) }
{
    let lows = ends.lows.as_slice();
    let highs = ends.highs.as_slice();
    if !are_numbers(lows) || !are_numbers(highs) {
        return None;
    }
    Some(Range {
        low: greatest_low(lows),
        high: least_high(highs),
    })
}
