//! Loop values plus amounts: skewed and shifted loops.

ghost use Rattle.std.specs.Prelude.{◌≡◌, ◌+◌, ◌*◌, ◌-◌, ◌<◌, ◌≤◌, ◌^◌, ◌≤ℤ◌, ◌<ℤ◌};
ghost use Rattle.std.specs.Prelude.{nat_le, None, pos, length, unsigned_abs, IfOk};
ghost use Rattle.std.specs.List.{All};
ghost use Rattle.ch_affine.specs.Affine.{form, IsAtMost};
ghost use Rattle.ch_moved.specs.Arguments.{is_named, natural};
ghost use Rattle.ch_moved.specs.Causes.{first_failing, no_level, no_piece, Answers};
ghost use Rattle.ch_moved.specs.Moved.{moved, revalued};
ghost use Rattle.ch_permute.specs.Lowered.{plus};
ghost use Rattle.ch_permute.specs.Raised.{growth, shift_cause, shifted};
ghost use Rattle.ch_permute.specs.Raised.{skew_cause, skewed, wrong_count};
ghost use Rattle.ch_order.specs.Legal.{AreAmong};
ghost use Rattle.ch_space.specs.Keeps.{most_weight};

use crate::change::raised_pieces;
use ch_affine::List;
use ch_moved::causes::{named_twice, no_level, no_piece, too_heavy, too_large};
use ch_moved::closed_space;
use ch_nest::Shape;
use ch_space::{ShapeError, Space};
use std::alloc::{AllocError, Global};

/// The number of amounts, where it isn't that of the levels around the level.
fn wrong_count(level: i64, amounts: &[i64]) -> Option<Shape>
    ensures { result ≡ wrong_count level amounts.now }
{
    let count = amounts.len() as i128;
    if count == i128::from(level) - 1 {
        return None;
    }
    Some(Shape {
        code: 4,
        number: count,
    })
}

/// The number by which a skew multiplies the weight.
fn growth(amounts: &[i64]) -> u128
    requires { All (IsAtMost 64) amounts.now }
    ensures value { result ≡ growth amounts.now }
    ensures few { result ≤ 2 ^ 80 }
{
    let mut growth = 1;
    for amount in amounts {
        growth += u128::from(amount.unsigned_abs());
    }
    growth
}

/// Why the shape of the program forbids a skew, the first cause of all.
fn skew_cause(space: &Space, numbers: &[i64], level: i64, amounts: &[i64]) -> Option<Shape>
    ensures { result ≡ skew_cause space.now.list space.now.weight numbers.now level amounts.now }
{
    if let Some(shape) = no_piece(space, numbers) {
        return Some(shape);
    }
    if let Some(shape) = no_level(space, numbers, level) {
        return Some(shape);
    }
    if let Some(shape) = named_twice(numbers) {
        return Some(shape);
    }
    if let Some(shape) = wrong_count(level, amounts) {
        return Some(shape);
    }
    if let Some(shape) = too_large(amounts, 64) {
        return Some(shape);
    }
    too_heavy(space.weight, growth(amounts))
}

/// Why the shape of the program forbids a shift, the first cause of all.
fn shift_cause(space: &Space, numbers: &[i64], level: i64, amount: i64) -> Option<Shape>
    ensures { result ≡ shift_cause space.now.list numbers.now level amount }
{
    if let Some(shape) = no_piece(space, numbers) {
        return Some(shape);
    }
    if let Some(shape) = no_level(space, numbers, level) {
        return Some(shape);
    }
    if let Some(shape) = named_twice(numbers) {
        return Some(shape);
    }
    too_large(&[amount], 1 << 20)
}

/// The space with the value of the level greater in the named pieces, by `amount` and by the values
/// around it times their amounts.
fn raised(
    alloc: Global,
    space: &Space,
    numbers: &[i64],
    level: i64,
    amounts: &[i64],
    amount: i64,
    weight: u64,
) -> Result<Space, AllocError>
    requires few { space.now.commands < 32 }
    requires named { no_piece space.now.list numbers.now ≡ None }
    requires deep { no_level space.now.list numbers.now level ≡ None }
    requires before { pos 1 ≤ℤ level → pos (length amounts.now) <ℤ level }
    requires small { All (IsAtMost 64) amounts.now }
    requires near { IsAtMost (2 ^ 20) amount }
    requires weight { weight ≡ space.now.weight * growth amounts.now }
    requires light { weight ≤ most_weight }
    ensures list { IfOk result (λ new. new.list
        ≡ moved (revalued (is_named space.now.list numbers.now)
        (plus (form amounts.now amount) (natural level - 1))) space.now.list) }
    ensures kept { IfOk result (λ new. AreAmong space.now.list new.list) }
    ensures no_others { IfOk result (λ new. AreAmong new.list space.now.list) }
    ensures arrays { IfOk result (λ new. new.arrays ≡ space.now.arrays) }
    ensures temps { IfOk result (λ new. new.temps ≡ space.now.temps) }
    ensures weight { IfOk result (λ new. new.weight ≡ weight) }
    ensures commands { IfOk result (λ new. new.commands ≡ space.now.commands + 1) }
{
    let old = space.pieces.as_slice();
    let pieces = raised_pieces(alloc, old, numbers, level, amounts, amount)?;
    let counts = List::from_slice(alloc, space.counts.as_slice())?;
    closed_space(alloc, space, pieces, counts, weight)
}

/// The space with a skewed loop: in the named pieces each loop value around the level, times its
/// amount, is added to that of the level. It is not tested whether the program means the same.
pub fn skew(
    alloc: Global,
    space: &Space,
    pieces: &[i64],
    level: i64,
    amounts: &[i64],
) -> Result<Space, ShapeError>
    requires few { space.now.commands < 32 }
    ensures cause { Answers result
        (skew_cause space.now.list space.now.weight pieces.now level amounts.now) }
    ensures list { IfOk result (λ new. new.list
        ≡ skewed space.now.list pieces.now level amounts.now) }
    ensures kept { IfOk result (λ new. AreAmong space.now.list new.list) }
    ensures no_others { IfOk result (λ new. AreAmong new.list space.now.list) }
    ensures arrays { IfOk result (λ new. new.arrays ≡ space.now.arrays) }
    ensures temps { IfOk result (λ new. new.temps ≡ space.now.temps) }
    ensures weight { IfOk result (λ new. new.weight ≡ space.now.weight * growth amounts.now) }
    ensures commands { IfOk result (λ new. new.commands ≡ space.now.commands + 1) }
{
    if let Some(shape) = skew_cause(space, pieces, level, amounts) {
        return Err(ShapeError::Shape(shape));
    }
    let weight = space.weight * growth(amounts) as u64;
    let new = raised(alloc, space, pieces, level, amounts, 0, weight)?;
    Ok(new)
}

/// The space with a shifted loop: in the named pieces the amount is added to the loop value of the
/// level. It is not tested whether the program means the same.
pub fn shift(
    alloc: Global,
    space: &Space,
    pieces: &[i64],
    level: i64,
    amount: i64,
) -> Result<Space, ShapeError>
    requires few { space.now.commands < 32 }
    ensures cause { Answers result (shift_cause space.now.list pieces.now level amount) }
    ensures list { IfOk result (λ new. new.list ≡ shifted space.now.list pieces.now level amount) }
    ensures kept { IfOk result (λ new. AreAmong space.now.list new.list) }
    ensures no_others { IfOk result (λ new. AreAmong new.list space.now.list) }
    ensures arrays { IfOk result (λ new. new.arrays ≡ space.now.arrays) }
    ensures temps { IfOk result (λ new. new.temps ≡ space.now.temps) }
    ensures weight { IfOk result (λ new. new.weight ≡ space.now.weight) }
    ensures commands { IfOk result (λ new. new.commands ≡ space.now.commands + 1) }
{
    if let Some(shape) = shift_cause(space, pieces, level, amount) {
        return Err(ShapeError::Shape(shape));
    }
    let new = raised(alloc, space, pieces, level, &[], amount, space.weight)?;
    Ok(new)
}
