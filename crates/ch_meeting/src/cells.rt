//! The rows which say that two accesses name one cell. A subscript with a modulus is its form's
//! value less some number of turns of the modulus, a variable of its own. One variable is 1, and
//! carries a constant that has no room beside another.

ghost use Rattle.std.specs.Prelude.{◌≡◌, ◌≤◌, ◌<◌, ◌+◌, ◌^◌, ◌+ℤ◌, ◌-ℤ◌, ◌*ℤ◌, ℤ};
ghost use Rattle.std.specs.Prelude.{pos, List, length, drop, IfOk, IsTrue, OnOk};
ghost use Rattle.std.specs.List.{All};
ghost use Rattle.ch_affine.specs.Affine.{IsAtMost, value};
ghost use Rattle.ch_affine.specs.Rows.{lies_in};
ghost use Rattle.ch_meeting.specs.Drafts.{IsDraft, Narrows};
ghost use Rattle.ch_meeting.specs.Placed.{InModulus, IsSame, SameUpTo, left};
ghost use Rattle.ch_poly.specs.Boxes.{at};

use crate::draft::{Draft, add, add_one, no_coefs, row, subtract};
use crate::question::TwoAccesses;
use ch_affine::{Aff, LARGEST_COEFFICIENT, List};
use ch_nest::Sub;
use std::alloc::{AllocError, Global};

/// Where the iterators that an access takes and the turns of its subscripts stand among the
/// variables.
#[derive(Debug, Clone, Copy, PartialEq, Eq)]
pub(crate) struct Site {
    pub(crate) iters: usize,
    pub(crate) turns: usize,
}

/// The sites of two accesses, and the variable that is 1.
#[derive(Debug, Clone, Copy, PartialEq, Eq)]
pub(crate) struct Sites {
    pub(crate) here: Site,
    pub(crate) there: Site,
    pub(crate) one: usize,
}

/// The row of what is left of a subscript's form.
fn left_row(
    alloc: Global,
    variables: usize,
    sub: &Sub,
    iters: usize,
    turn: usize,
) -> Result<Aff, AllocError>
    requires after { iters + length sub.now.form.coefs ≤ turn }
    requires inside { turn < variables }
    requires few { variables ≤ 4096 }
    ensures long { IfOk result (λ row. length row.coefs ≡ variables) }
    ensures value { IfOk result (λ row. (z : List ℤ) → value row z
        ≡ left sub.now (drop iters z) (at z turn)) }
{
    let mut coefs = no_coefs(alloc, variables)?;
    add(&mut coefs, iters, sub.form.coefs.as_slice())?;
    add_one(&mut coefs, turn, -i64::from(sub.modulus))?;
    row(coefs, variables, sub.form.constant)
}

/// The row which says that what is left is below the modulus.
fn below_row(
    alloc: Global,
    variables: usize,
    sub: &Sub,
    iters: usize,
    turn: usize,
    one: usize,
) -> Result<Aff, AllocError>
    requires some { 1 ≤ sub.now.modulus }
    requires after { iters + length sub.now.form.coefs ≤ turn }
    requires before { turn < one }
    requires inside { one < variables }
    requires few { variables ≤ 4096 }
    ensures long { IfOk result (λ row. length row.coefs ≡ variables) }
    ensures value { IfOk result (λ row. (z : List ℤ) → at z one ≡ pos 1 → value row z
        ≡ (pos sub.now.modulus -ℤ pos 1) -ℤ left sub.now (drop iters z) (at z turn)) }
{
    let mut coefs = no_coefs(alloc, variables)?;
    let modulus = i64::from(sub.modulus);
    subtract(&mut coefs, iters, sub.form.coefs.as_slice())?;
    add_one(&mut coefs, turn, modulus)?;
    add_one(&mut coefs, one, modulus - 1)?;
    row(coefs, variables, -sub.form.constant)
}

/// The coefficient of the variable that is 1 and the constant of a row which together are the
/// difference of two constants: the constant alone where it has room for the difference.
fn carried(constant: i64, other: i64) -> (i64, i64)
    requires constant { IsAtMost (2 ^ 60) constant }
    requires other { IsAtMost (2 ^ 60) other }
    ensures sum { (result.0 +ℤ result.1) ≡ (constant -ℤ other) }
    ensures one { IsAtMost (2 ^ 60) result.0 }
    ensures rest { IsAtMost (2 ^ 60) result.1 }
{
    let difference = constant - other;
    if difference.unsigned_abs() <= LARGEST_COEFFICIENT as u64 {
        return (0, difference);
    }
    (-other, constant)
}

/// The row that is 0 where what is left of both is the same.
fn same_row(
    alloc: Global,
    variables: usize,
    sub: &Sub,
    other: &Sub,
    sites: Sites,
) -> Result<Aff, AllocError>
    requires after { sites.here.iters + length sub.now.form.coefs ≤ sites.there.iters }
    requires turns_after { sites.there.iters + length other.now.form.coefs ≤ sites.here.turns }
    requires turns { sites.here.turns < sites.there.turns }
    requires before { sites.there.turns < sites.one }
    requires inside { sites.one < variables }
    requires few { variables ≤ 4096 }
    ensures long { IfOk result (λ row. length row.coefs ≡ variables) }
    ensures value { IfOk result (λ row. (z : List ℤ) → at z sites.one ≡ pos 1 → value row z
        ≡ left sub.now (drop sites.here.iters z) (at z sites.here.turns)
        -ℤ left other.now (drop sites.there.iters z) (at z sites.there.turns)) }
{
    // Where both constants have room in one, a divisor of the coefficients can tell that the row is
    // never 0.
    let (coef, constant) = carried(sub.form.constant, other.form.constant);
    let mut coefs = no_coefs(alloc, variables)?;
    add(&mut coefs, sites.here.iters, sub.form.coefs.as_slice())?;
    subtract(&mut coefs, sites.there.iters, other.form.coefs.as_slice())?;
    add_one(&mut coefs, sites.here.turns, -i64::from(sub.modulus))?;
    add_one(&mut coefs, sites.there.turns, i64::from(other.modulus))?;
    add_one(&mut coefs, sites.one, coef)?;
    row(coefs, variables, constant)
}

/// Asks for turns that leave a number from 0 to below the modulus, where there is one.
fn in_modulus(
    alloc: Global,
    draft: &mut Draft,
    sub: &Sub,
    iters: usize,
    turn: usize,
    one: usize,
) -> Result<(), AllocError>
    requires draft { IsDraft draft.old }
    requires after { iters + length sub.now.form.coefs ≤ turn }
    requires before { turn < one }
    requires inside { one < length draft.old.boxes }
    requires unit { (z : List ℤ) → IsTrue (lies_in draft.old.boxes z) → at z one ≡ pos 1 }
    ensures { OnOk result (Narrows draft.old draft.new
        (λ z. InModulus sub.now (drop iters z) (at z turn))) }
{
    if sub.modulus == 0 {
        return Ok(());
    }
    let variables = draft.boxes.len();
    draft.at_least_zero(left_row(alloc, variables, sub, iters, turn)?)?;
    draft.at_least_zero(below_row(alloc, variables, sub, iters, turn, one)?)
}

/// Asks for points at which two subscripts are the same number.
fn same_subscript(
    alloc: Global,
    draft: &mut Draft,
    sub: &Sub,
    other: &Sub,
    sites: Sites,
) -> Result<(), AllocError>
    requires draft { IsDraft draft.old }
    requires after { sites.here.iters + length sub.now.form.coefs ≤ sites.there.iters }
    requires turns_after { sites.there.iters + length other.now.form.coefs ≤ sites.here.turns }
    requires turns { sites.here.turns < sites.there.turns }
    requires before { sites.there.turns < sites.one }
    requires inside { sites.one < length draft.old.boxes }
    requires unit { (z : List ℤ) → IsTrue (lies_in draft.old.boxes z) → at z sites.one ≡ pos 1 }
    ensures { OnOk result (Narrows draft.old draft.new (λ z. IsSame sub.now other.now
        (drop sites.here.iters z) (drop sites.there.iters z) (at z sites.here.turns) (at z sites.there.turns))) }
{
    let row = same_row(alloc, draft.boxes.len(), sub, other, sites)?;
    draft.zero(alloc, row)?;
    in_modulus(
        alloc,
        draft,
        sub,
        sites.here.iters,
        sites.here.turns,
        sites.one,
    )?;
    in_modulus(
        alloc,
        draft,
        other,
        sites.there.iters,
        sites.there.turns,
        sites.one,
    )
}

/// Asks for points at which the subscripts of two accesses are the same numbers.
pub(crate) fn same_cell(
    alloc: Global,
    draft: &mut Draft,
    accesses: &TwoAccesses,
    sites: Sites,
) -> Result<(), AllocError>
    requires draft { IsDraft draft.old }
    requires same { length accesses.now.first.now.subs ≡ length accesses.now.second.now.subs }
    requires after { All (λ s. sites.here.iters + length s.form.coefs ≤ sites.there.iters)
        accesses.now.first.now.subs }
    requires turns_after { All (λ s. sites.there.iters + length s.form.coefs ≤ sites.here.turns)
        accesses.now.second.now.subs }
    requires turns { sites.here.turns + length accesses.now.first.now.subs ≤ sites.there.turns }
    requires before { sites.there.turns + length accesses.now.first.now.subs ≤ sites.one }
    requires inside { sites.one < length draft.old.boxes }
    requires unit { (z : List ℤ) → IsTrue (lies_in draft.old.boxes z) → at z sites.one ≡ pos 1 }
    ensures { OnOk result (Narrows draft.old draft.new
        (SameUpTo (length accesses.now.first.now.subs) accesses.now.first.now
        accesses.now.second.now sites.here sites.there)) }
{
    let subs = accesses.first.subs.as_slice();
    let others = accesses.second.subs.as_slice();
    for k in 0..subs.len() {
        let here = Site {
            turns: sites.here.turns + k,
            ..sites.here
        };
        let there = Site {
            turns: sites.there.turns + k,
            ..sites.there
        };
        let one = sites.one;
        same_subscript(
            alloc,
            draft,
            &subs[k],
            &others[k],
            Sites { here, there, one },
        )?;
    }
    Ok(())
}
