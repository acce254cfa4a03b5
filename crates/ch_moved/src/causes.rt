//! The causes that several commands share, and the levels of pieces that numbers name.

ghost use Rattle.std.specs.Prelude.{◌≡◌, ◌+◌, ◌*◌, ◌<◌, ◌≤◌, ◌^◌, ◌<ℤ◌, nat_le, not};
ghost use Rattle.std.specs.Prelude.{◌&&◌, unsigned_abs, None, true, pos, length, IsTrue};
ghost use Rattle.std.specs.List.{list_any};
ghost use Rattle.std.specs.Ordering.{int_eq};
ghost use Rattle.ch_moved.specs.Arguments.{depth, has_level, is_piece, natural};
ghost use Rattle.ch_moved.specs.Causes.{cause, first_failing, has_twice, named_twice};
ghost use Rattle.ch_moved.specs.Causes.{no_level, no_piece, too_heavy, unshared};
ghost use Rattle.ch_space.specs.Keeps.{most_weight};
ghost use Rattle.ch_timed.specs.Groups.{in_group, piece};
ghost use Rattle.ch_timed.specs.Timed.{pieces};

use crate::groups::in_group;
use ch_nest::Shape;
use ch_space::{Space, pieces};

/// Whether it is the number of a piece.
pub fn is_piece(space: &Space, number: i64) -> bool
    ensures value { result ≡ is_piece space.now.list number }
    ensures near { result ≡ true → number <ℤ pos (2 ^ 32) }
{
    0 <= number && number < i64::from(pieces(space))
}

/// The number of a piece as one of those that start at 0.
pub fn index(space: &Space, number: i64) -> u32
    requires { IsTrue (is_piece space.now.list number) }
    ensures { result ≡ natural number }
{
    // A space has at most 256 pieces, as a look at its parts tells.
    let _ = space.pieces.len();
    number as u32
}

/// How many levels the piece of that number has.
pub fn depth(space: &Space, number: i64) -> usize
    requires { IsTrue (is_piece space.now.list number) }
    ensures { result ≡ depth space.now.list number }
{
    let piece = &space.pieces.as_slice()[number as usize];
    piece.places.len().saturating_sub(1)
}

/// Whether the level is one of 1 to the depth of the piece of that number.
fn has_level(space: &Space, level: i64, number: i64) -> bool
    requires { IsTrue (is_piece space.now.list number) }
    ensures { result ≡ has_level space.now.list level number }
{
    1 <= level && level as u64 <= depth(space, number) as u64
}

/// The first number that isn't a piece's.
pub fn no_piece(space: &Space, numbers: &[i64]) -> Option<Shape>
    ensures { result ≡ no_piece space.now.list numbers.now }
{
    for number in numbers {
        if !is_piece(space, *number) {
            return Some(Shape {
                code: 1,
                number: i128::from(*number),
            });
        }
    }
    None
}

/// The level, where one of the pieces doesn't have it.
pub fn no_level(space: &Space, numbers: &[i64], level: i64) -> Option<Shape>
    requires { no_piece space.now.list numbers.now ≡ None }
    ensures { result ≡ no_level space.now.list numbers.now level }
{
    for number in numbers {
        if !has_level(space, level, *number) {
            return Some(Shape {
                code: 2,
                number: i128::from(level),
            });
        }
    }
    None
}

/// Whether the number is one of these.
pub fn contains(numbers: &[i64], number: i64) -> bool
    ensures { result ≡ list_any (int_eq number) numbers.now }
{
    for other in numbers {
        if number == *other {
            return true;
        }
    }
    false
}

/// Whether a number stands twice among them.
fn has_twice(numbers: &[i64]) -> bool
    ensures { result ≡ has_twice numbers.now }
{
    for k in 0..numbers.len() {
        if contains(&numbers[k + 1..], numbers[k]) {
            return true;
        }
    }
    false
}

/// Whether a piece is named twice.
pub fn named_twice(numbers: &[i64]) -> Option<Shape>
    ensures { result ≡ named_twice numbers.now }
{
    if has_twice(numbers) {
        return Some(Shape { code: 3, number: 0 });
    }
    None
}

/// The first number of a magnitude above the limit.
pub fn too_large(numbers: &[i64], most: u64) -> Option<Shape>
    ensures { result ≡ first_failing 4 (λ a. nat_le (unsigned_abs a) most) numbers.now }
{
    for number in numbers {
        if number.unsigned_abs() > most {
            return Some(Shape {
                code: 4,
                number: i128::from(*number),
            });
        }
    }
    None
}

/// Whether the other piece is in the group at level `first`, but doesn't share level `last`.
fn is_left(space: &Space, number: u32, first: usize, last: usize, other: u32) -> bool
    requires number { number < length (pieces space.now.list) }
    requires other { other < length (pieces space.now.list) }
    ensures { result ≡ (in_group space.now.list number first (piece space.now.list other)
        && not (in_group space.now.list number last (piece space.now.list other))) }
{
    in_group(space, number, first, other) && !in_group(space, number, last, other)
}

/// The least piece of the group at level `first` that doesn't share level `last`.
pub fn unshared(space: &Space, number: u32, first: usize, last: usize) -> Option<Shape>
    requires { number < length (pieces space.now.list) }
    ensures { result ≡ unshared space.now.list number first last }
{
    for k in 0..pieces(space) {
        if is_left(space, number, first, last, k) {
            return Some(Shape {
                code: 5,
                number: i128::from(k),
            });
        }
    }
    None
}

/// The product of the numbers by which the commands multiply, where it passes 2^20.
pub fn too_heavy(weight: u64, by: u128) -> Option<Shape>
    requires weight { weight ≤ most_weight }
    requires by { by ≤ 2 ^ 80 }
    ensures { result ≡ too_heavy weight by }
{
    let product = u128::from(weight) * by;
    if product > 1 << 20 {
        return Some(Shape {
            code: 6,
            number: product as i128,
        });
    }
    None
}
