//! The loops of a piece in another order.

ghost use Rattle.std.specs.Prelude.{◌≡◌, ◌+◌, ◌<◌, not, ◌&&◌, None};
ghost use Rattle.std.specs.Prelude.{pos, length, map, IfOk, IsTrue};
ghost use Rattle.ch_moved.specs.Causes.{first_failing, Answers};
ghost use Rattle.ch_moved.specs.Arguments.{natural};
ghost use Rattle.ch_permute.specs.Permuted.{is_permutation, moving, permute_cause};
ghost use Rattle.ch_permute.specs.Permuted.{permuted, unshared_moving};
ghost use Rattle.ch_order.specs.Legal.{AreAmong};
ghost use Rattle.ch_space.specs.Members.{group};
ghost use Rattle.ch_timed.specs.Groups.{in_group, piece};
ghost use Rattle.ch_timed.specs.Timed.{pieces};

use crate::change::permuted_pieces;
use crate::ordering::{first_moving, is_permutation, last_moving};
use ch_affine::List;
use ch_moved::causes::{depth, index, is_piece, unshared};
use ch_moved::closed_space;
use ch_nest::Shape;
use ch_space::{ShapeError, Space};
use std::alloc::{AllocError, Global};

/// The least piece of the group at the first level that moves which doesn't share the last one.
fn unshared_moving(space: &Space, number: u32, order: &[i64]) -> Option<Shape>
    requires { number < length (pieces space.now.list) }
    ensures { result ≡ unshared_moving space.now.list (pos number) (moving 1 order.now) }
{
    match first_moving(order) {
        None => None,
        Some(first) => unshared(space, number, first, last_moving(order, first)),
    }
}

/// Why the shape of the program forbids it, the first cause of all.
fn permute_cause(space: &Space, number: i64, order: &[i64]) -> Option<Shape>
    ensures { result ≡ permute_cause space.now.list number order.now }
{
    if !is_piece(space, number) {
        return Some(Shape {
            code: 1,
            number: i128::from(number),
        });
    }
    if depth(space, number) < order.len() {
        return Some(Shape {
            code: 2,
            number: order.len() as i128,
        });
    }
    if !is_permutation(order) {
        return Some(Shape { code: 3, number: 0 });
    }
    unshared_moving(space, index(space, number), order)
}

/// The space, where nothing forbids the command.
fn permuted(alloc: Global, space: &Space, number: i64, order: &[i64]) -> Result<Space, AllocError>
    requires few { space.now.commands < 32 }
    requires cause { permute_cause space.now.list number order.now ≡ None }
    ensures list { IfOk result (λ new. new.list ≡ permuted space.now.list number order.now) }
    ensures kept { IfOk result (λ new. AreAmong space.now.list new.list) }
    ensures no_others { IfOk result (λ new. AreAmong new.list space.now.list) }
    ensures arrays { IfOk result (λ new. new.arrays ≡ space.now.arrays) }
    ensures temps { IfOk result (λ new. new.temps ≡ space.now.temps) }
    ensures weight { IfOk result (λ new. new.weight ≡ space.now.weight) }
    ensures commands { IfOk result (λ new. new.commands ≡ space.now.commands + 1) }
{
    let pieces = permuted_pieces(alloc, space.pieces.as_slice(), number as usize, order)?;
    let counts = List::from_slice(alloc, space.counts.as_slice())?;
    closed_space(alloc, space, pieces, counts, space.weight)
}

/// The space with the loops around a piece in another order: the new loop of each level is the one
/// that the order names. Pieces that share the first loop which another one replaces change with
/// it. It is not tested whether the program means the same.
pub fn permute(alloc: Global, space: &Space, piece: i64, order: &[i64]) -> Result<Space, ShapeError>
    requires few { space.now.commands < 32 }
    ensures cause { Answers result (permute_cause space.now.list piece order.now) }
    ensures list { IfOk result (λ new. new.list ≡ permuted space.now.list piece order.now) }
    ensures kept { IfOk result (λ new. AreAmong space.now.list new.list) }
    ensures no_others { IfOk result (λ new. AreAmong new.list space.now.list) }
    ensures arrays { IfOk result (λ new. new.arrays ≡ space.now.arrays) }
    ensures temps { IfOk result (λ new. new.temps ≡ space.now.temps) }
    ensures weight { IfOk result (λ new. new.weight ≡ space.now.weight) }
    ensures commands { IfOk result (λ new. new.commands ≡ space.now.commands + 1) }
{
    if let Some(shape) = permute_cause(space, piece, order) {
        return Err(ShapeError::Shape(shape));
    }
    let new = permuted(alloc, space, piece, order)?;
    Ok(new)
}
