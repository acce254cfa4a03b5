//! Sums over loop values, which wrap on the way, and the places that they make.

ghost use Rattle.std.specs.Prelude.{◌≡◌, ◌≤◌, ◌^◌, pos, ◌+ℤ◌, ◌-ℤ◌, ◌*ℤ◌};
ghost use Rattle.std.specs.Prelude.{neg_ℤ, slice_index_or, slice_set};
ghost use Rattle.std.specs.Int.{int_wrap, w64, w128};
ghost use Rattle.ch_plan.specs.Planned.{at, mixed, residue_value, residues_value};
ghost use Rattle.ch_plan.specs.Planned.{spot_place, sum_value, wide_value};

use crate::plan::{Residue, Spot, Sum, Term, Weight};

#[inline]
pub(crate) fn negated(x: i64) -> i64
    ensures { result ≡ int_wrap w64 (neg_ℤ x) }
{
    x.wrapping_neg()
}

#[inline]
pub fn plus(x: i64, y: i64) -> i64
    ensures { result ≡ int_wrap w64 (x +ℤ y) }
{
    x.wrapping_add(y)
}

#[inline]
pub(crate) fn minus(x: i64, y: i64) -> i64
    ensures { result ≡ int_wrap w64 (x -ℤ y) }
{
    x.wrapping_sub(y)
}

#[inline]
pub fn times(x: i64, y: i64) -> i64
    ensures { result ≡ int_wrap w64 (x *ℤ y) }
{
    x.wrapping_mul(y)
}

#[inline]
pub(crate) fn read(numbers: &[i64], at: usize) -> i64
    ensures { result ≡ slice_index_or numbers.now at (pos 0) }
{
    if at < numbers.len() { numbers[at] } else { 0 }
}

#[inline]
pub(crate) fn written(numbers: &mut [i64], at: usize, value: i64)
    ensures { numbers.new ≡ slice_set numbers.old at value }
{
    if at < numbers.len() {
        numbers[at] = value;
    }
}

#[inline]
fn added(total: i64, term: &Term, point: &[i64]) -> i64
    ensures { result ≡ int_wrap w64 (total +ℤ (term.now.coef *ℤ at point.now term.now.level)) }
{
    let x = read(point, term.level);
    plus(total, times(term.coef, x))
}

/// A sum, wrapped at 64 bits.
#[inline]
pub(crate) fn sum_value(sum: &Sum, point: &[i64]) -> i64
    ensures { result ≡ sum_value sum.now point.now }
{
    let terms = sum.terms.as_slice();
    let mut total = sum.constant;
    for k in 0..terms.len() {
        total = added(total, &terms[k], point);
    }
    total
}

fn wide_plus(x: i128, y: i128) -> i128
    ensures { result ≡ int_wrap w128 (x +ℤ y) }
{
    x.wrapping_add(y)
}

fn wide_times(x: i128, y: i128) -> i128
    ensures { result ≡ int_wrap w128 (x *ℤ y) }
{
    x.wrapping_mul(y)
}

pub(crate) fn wide_negated(x: i128) -> i128
    ensures { result ≡ int_wrap w128 (neg_ℤ x) }
{
    x.wrapping_neg()
}

fn wide_added(total: i128, term: &Term, point: &[i64]) -> i128
    ensures { result ≡ int_wrap w128 (total +ℤ (term.now.coef *ℤ at point.now term.now.level)) }
{
    let x = read(point, term.level);
    wide_plus(total, wide_times(i128::from(term.coef), i128::from(x)))
}

/// A sum, wrapped at 128 bits.
pub(crate) fn wide_value(sum: &Sum, point: &[i64]) -> i128
    ensures { result ≡ wide_value sum.now point.now }
{
    let terms = sum.terms.as_slice();
    let mut total = i128::from(sum.constant);
    for k in 0..terms.len() {
        total = wide_added(total, &terms[k], point);
    }
    total
}

fn weight_added(total: i128, weight: &Weight, point: &[i64]) -> i128
    ensures { result ≡ int_wrap w128 (total +ℤ (weight.now.coef *ℤ sum_value weight.now.sum point.now)) }
{
    let x = sum_value(&weight.sum, point);
    wide_plus(total, wide_times(i128::from(weight.coef), i128::from(x)))
}

/// A constant and multiples of sums, wrapped at 128 bits.
fn mixed(constant: i64, weights: &[Weight], point: &[i64]) -> i128
    ensures { result ≡ int_wrap w128 (constant +ℤ mixed weights.now point.now) }
{
    let mut total = i128::from(constant);
    for k in 0..weights.len() {
        total = weight_added(total, &weights[k], point);
    }
    total
}

/// What a residue is, and 0 where the modulus is 0.
fn residue_value(residue: &Residue, point: &[i64]) -> i64
    ensures { result ≡ residue_value residue.now point.now }
{
    if residue.modulus == 0 {
        return 0;
    }
    let value = mixed(residue.constant, residue.weights.as_slice(), point);
    value.rem_euclid(i128::from(residue.modulus)) as i64
}

fn residues_value(residues: &[Residue], point: &[i64]) -> i64
    ensures { result ≡ residues_value residues.now point.now }
{
    match residues {
        [] => 0,
        [first, others @ ..] => {
            let here = times(first.stride, residue_value(first, point));
            plus(here, residues_value(others, point))
        }
    }
}

/// Where an access is among all cells.
#[inline]
pub(crate) fn spot_place(spot: &Spot, point: &[i64]) -> usize
    ensures value { result ≡ spot_place point.now spot.now }
    ensures small { result ≤ 2 ^ 63 }
{
    let at = sum_value(&spot.sum, point);
    if spot.residues.is_empty() {
        at.unsigned_abs() as usize
    } else {
        plus(at, residues_value(spot.residues.as_slice(), point)).unsigned_abs() as usize
    }
}
