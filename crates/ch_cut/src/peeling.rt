//! The first turns of a loop taken out of it, or the last ones.

ghost use Rattle.std.specs.Prelude.{◌≡◌, ◌+◌, ◌<◌, ◌≤◌, ◌^◌, ◌<ℤ◌, ◌≤ℤ◌, ◌+ℤ◌, ◌-ℤ◌};
ghost use Rattle.std.specs.Prelude.{None, [], ◌∷◌, ℤ, List, length, pos, negsuc, IfOk};
ghost use Rattle.ch_affine.specs.Affine.{IsAtMost};
ghost use Rattle.ch_cut.specs.Cut.{no_count, peel_cause, peeled, peels};
ghost use Rattle.ch_cut.specs.Forms.{IsModest, holds_at};
ghost use Rattle.ch_cut.specs.Ends.{IsLeastOf};
ghost use Rattle.ch_moved.specs.Causes.{Answers, first_of, no_level, no_piece};
ghost use Rattle.ch_order.specs.Legal.{AreAmong};
ghost use Rattle.ch_space.specs.Keeps.{AreApart, places_of};
ghost use Rattle.ch_timed.specs.Members.{In};

use crate::cut::cut;
use crate::ends::least;
use crate::forms::at_most;
use ch_affine::Aff;
use ch_moved::causes::{no_level, no_piece};
use ch_nest::Shape;
use ch_space::{Piece, ShapeError, Space};
use std::alloc::{AllocError, Global};

/// The count, where it is 0 or has a magnitude above 16.
fn no_count(count: i64) -> Option<Shape>
    ensures { result ≡ no_count count }
{
    if count == 0 || count.unsigned_abs() > 16 {
        return Some(Shape {
            code: 4,
            number: i128::from(count),
        });
    }
    None
}

/// Why the shape of the program forbids to peel, but for the number of pieces that it leaves.
fn peel_cause(space: &Space, number: i64, level: i64, count: i64) -> Option<Shape>
    ensures { result ≡ first_of
        (no_piece space.now.list (number ∷ []) ∷ no_level space.now.list (number ∷ []) level ∷ no_count count ∷ []) }
{
    if let Some(shape) = no_piece(space, &[number]) {
        return Some(shape);
    }
    if let Some(shape) = no_level(space, &[number], level) {
        return Some(shape);
    }
    no_count(count)
}

/// The last value of the turns that come first: so many from the first value on, or all but so
/// many.
fn last_of_first(
    alloc: Global,
    pieces: &[Piece],
    piece: &Piece,
    level: usize,
    count: i64,
) -> Result<i64, AllocError>
    requires apart { AreApart pieces.now }
    requires one { In piece.now pieces.now }
    requires some { 1 ≤ level }
    requires deep { level ≤ piece.now.levels }
    requires count { IsAtMost 16 count }
    ensures front { pos 0 <ℤ count
        → IfOk result (λ v. IsLeastOf pieces.now (places_of piece.now) level (pos 1) ((v +ℤ pos 1) -ℤ count)) }
    ensures back { count ≤ℤ pos 0
        → IfOk result (λ v. IsLeastOf pieces.now (places_of piece.now) level (negsuc 0) (count -ℤ v)) }
    ensures near { IfOk result (IsAtMost (2 ^ 59)) }
{
    if count > 0 {
        let first = least(alloc, pieces, piece, level, 1)?;
        return Ok(first + count - 1);
    }
    let opposite = least(alloc, pieces, piece, level, -1)?;
    Ok(count - opposite)
}

/// The form that is at least 0 at the turns that come first.
fn first_turns(
    alloc: Global,
    space: &Space,
    number: i64,
    level: i64,
    count: i64,
) -> Result<Aff, AllocError>
    requires piece { no_piece space.now.list (number ∷ []) ≡ None }
    requires level { no_level space.now.list (number ∷ []) level ≡ None }
    requires count { IsAtMost 16 count }
    ensures same { IfOk result (λ f. (xs : List ℤ) → holds_at f xs
        ≡ peels space.now.list number level count xs) }
    ensures short { IfOk result (λ f. pos (length f.coefs) ≤ℤ level) }
    ensures modest { IfOk result (λ f. IsModest f) }
{
    let pieces = space.pieces.as_slice();
    let piece = &pieces[number as usize];
    let last = last_of_first(alloc, pieces, piece, level as usize, count)?;
    at_most(alloc, level as usize, last)
}

/// The space with the first turns of the loop of the level around a piece taken out of it, as many
/// as the count says, or, where it is below 0, the last ones: they are counted over all pieces that
/// share the loop. It is not tested whether the program means the same.
///
/// # Errors
///
/// C1 where there is no piece of that number, C2 where it doesn't have that level, C4 where the
/// count is 0 or has a magnitude above 16, and C7 where there are more than 256 pieces then.
pub fn peel(
    alloc: Global,
    space: &Space,
    piece: i64,
    level: i64,
    count: i64,
) -> Result<Space, ShapeError>
    requires few { space.now.commands < 32 }
    ensures cause { Answers result (peel_cause space.now.list piece level count) }
    ensures list { IfOk result (λ new. new.list ≡ peeled space.now.list piece level count) }
    ensures kept { IfOk result (λ new. AreAmong space.now.list new.list) }
    ensures no_others { IfOk result (λ new. AreAmong new.list space.now.list) }
    ensures arrays { IfOk result (λ new. new.arrays ≡ space.now.arrays) }
    ensures temps { IfOk result (λ new. new.temps ≡ space.now.temps) }
    ensures weight { IfOk result (λ new. new.weight ≡ space.now.weight) }
    ensures commands { IfOk result (λ new. new.commands ≡ space.now.commands + 1) }
{
    if let Some(shape) = peel_cause(space, piece, level, count) {
        return Err(ShapeError::Shape(shape));
    }
    let form = first_turns(alloc, space, piece, level, count)?;
    cut(alloc, space, piece, level, &form)
}
