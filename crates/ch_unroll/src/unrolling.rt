//! The command that unrolls.

ghost use Rattle.std.specs.Prelude.{◌≡◌, ◌+◌, ◌*◌, ◌<◌, ◌≤◌, ◌^◌, None, length, IfOk};
ghost use Rattle.ch_moved.specs.Arguments.{natural};
ghost use Rattle.ch_moved.specs.Causes.{Answers};
ghost use Rattle.ch_order.specs.Legal.{AreAmong};
ghost use Rattle.ch_pieces.specs.Candidates.{AreCandidates};
ghost use Rattle.ch_unroll.specs.Unrolled.{first_cause, no_amount};
ghost use Rattle.ch_unroll.specs.Unrolled.{unroll_cause, unrolled, unrolls};

use crate::copies::copies;
use crate::layout::laid_out;
use ch_affine::List;
use ch_moved::causes::{no_level, no_piece, too_heavy};
use ch_nest::Shape;
use ch_pieces::{Candidate, moved_space};
use ch_space::{ShapeError, Space};
use std::alloc::{AllocError, Global};

/// The most copies of a loop's body.
const MOST_COPIES: i64 = 32;

/// The amount, where it isn't that of some copies, and not of too many.
fn no_amount(amount: i64) -> Option<Shape>
    ensures { result ≡ no_amount amount }
{
    if 1 <= amount && amount <= MOST_COPIES {
        return None;
    }
    Some(Shape {
        code: 4,
        number: i128::from(amount),
    })
}

/// Why the shape of the program forbids it, the first cause of those that the pieces show before it
/// is done.
fn first_cause(space: &Space, piece: i64, level: i64, amount: i64) -> Option<Shape>
    ensures { result ≡ first_cause space.now.list space.now.weight piece level amount }
{
    if let Some(shape) = no_piece(space, &[piece]) {
        return Some(shape);
    }
    if let Some(shape) = no_level(space, &[piece], level) {
        return Some(shape);
    }
    if let Some(shape) = no_amount(amount) {
        return Some(shape);
    }
    too_heavy(space.weight, u128::from(amount.unsigned_abs()))
}

/// Candidates for the pieces, where nothing forbids the command.
fn unrolled_candidates(
    alloc: Global,
    space: &Space,
    piece: i64,
    level: i64,
    amount: i64,
) -> Result<List<Candidate>, AllocError>
    requires few { space.now.commands < 32 }
    requires cause { first_cause space.now.list space.now.weight piece level amount ≡ None }
    ensures are { IfOk result (AreCandidates (unrolls space.now.list piece level amount) space.now.list
        (space.now.weight * natural amount) (space.now.commands + 1)) }
    ensures number { IfOk result (λ candidates. length candidates ≤ 2 ^ 20) }
{
    let pieces = space.pieces.as_slice();
    let ours = pieces[piece as usize].places.as_slice();
    let layout = laid_out(pieces, ours, level as usize, amount as u32);
    copies(alloc, pieces, space.counts.as_slice(), ours, layout)
}

/// The space with an unrolled loop: so many turns of the level around a piece become copies of the
/// loop's body, one behind another, for all pieces of the loop. It is not tested whether the
/// program means the same.
///
/// # Errors
///
/// C1 where there is no piece of that number, C2 where it doesn't have that level, C4 where the
/// amount isn't 1 to 32, C6 where the commands multiply by too much, and C7 where there are more
/// than 256 pieces then.
pub fn unroll(
    alloc: Global,
    space: &Space,
    piece: i64,
    level: i64,
    amount: i64,
) -> Result<Space, ShapeError>
    requires few { space.now.commands < 32 }
    ensures cause { Answers result (unroll_cause space.now.list space.now.weight piece level amount) }
    ensures list { IfOk result (λ new. new.list ≡ unrolled space.now.list piece level amount) }
    ensures kept { IfOk result (λ new. AreAmong space.now.list new.list) }
    ensures no_others { IfOk result (λ new. AreAmong new.list space.now.list) }
    ensures arrays { IfOk result (λ new. new.arrays ≡ space.now.arrays) }
    ensures temps { IfOk result (λ new. new.temps ≡ space.now.temps) }
    ensures weight { IfOk result (λ new. new.weight ≡ space.now.weight * natural amount) }
    ensures commands { IfOk result (λ new. new.commands ≡ space.now.commands + 1) }
{
    if let Some(shape) = first_cause(space, piece, level, amount) {
        return Err(ShapeError::Shape(shape));
    }
    let candidates = unrolled_candidates(alloc, space, piece, level, amount)?;
    let weight = space.weight * amount as u64;
    moved_space(alloc, space, candidates, weight)
}
