//! The least reversed pair of two spaces.

ghost use Rattle.std.specs.Prelude.{◌≡◌, true, IfOk};
ghost use Rattle.ch_depends.specs.Depends.{pair_of};
ghost use Rattle.ch_depends.specs.Sought.{IsNameable};
ghost use Rattle.ch_depends.specs.Free.{pair_of_elements, reversed_but};
ghost use Rattle.ch_order.specs.Legal.{AreAmong};
ghost use Rattle.ch_timed.specs.Conflict.{conflict, reversed};
ghost use Rattle.ch_timed.specs.Order.{overtaken};
ghost use Rattle.ch_timed.specs.Timed.{step};

use crate::answers::{Pair, PiecePair};
use crate::candidates::{Candidate, least};
use crate::cells::conflict;
use crate::sides::all_sides;
use ch_space::Space;
use std::alloc::{AllocError, Global};

/// The identities of a candidate, with the first cell on which its elements conflict.
fn answer(alloc: Global, candidate: Candidate) -> Result<Option<Pair>, AllocError>
    requires first { IsNameable candidate.first }
    requires second { IsNameable candidate.second }
    ensures { IfOk result (λ pair. pair ≡ pair_of (overtaken true
        (step candidate.first) (step candidate.second)
        (conflict (step candidate.first) (step candidate.second)))) }
{
    let Candidate { first, second } = candidate;
    match conflict(alloc, &first, &second)? {
        None => Ok(None),
        Some(cell) => Ok(Some(Pair {
            first: first.identity,
            second: second.identity,
            cell,
        })),
    }
}

/// The least pair of conflicting elements that the new space has the other way round: that of the
/// least first element, and then of the least second one. None exactly where there is none.
pub fn reversed(alloc: Global, old: &Space, new: &Space) -> Result<Option<Pair>, AllocError>
    requires kept { AreAmong old.now.list new.now.list }
    ensures { IfOk result (λ pair. pair ≡ pair_of (reversed old.now.list new.now.list)) }
{
    reversed_but(alloc, old, new, &[])
}

/// The same of elements that are not of a listed pair of pieces of the old space, in either order.
/// A number that is no piece's lists nothing.
pub fn reversed_but(
    alloc: Global,
    old: &Space,
    new: &Space,
    free: &[PiecePair],
) -> Result<Option<Pair>, AllocError>
    requires kept { AreAmong old.now.list new.now.list }
    ensures { IfOk result (λ pair. pair
        ≡ pair_of_elements (reversed_but old.now.list new.now.list free.now)) }
{
    let sides = all_sides(alloc, old.pieces.as_slice(), new.pieces.as_slice())?;
    match least(alloc, sides.as_slice(), free)? {
        None => Ok(None),
        Some(candidate) => answer(alloc, candidate),
    }
}
