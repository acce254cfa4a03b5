//! The pairs of pieces of a space whose elements may change places, and the least reversed pair of
//! the others.

ghost use Rattle.std.specs.Prelude.{◌≡◌, ◌≤◌, ◌++◌, ◌∷◌, [], ◌↔◌, if◌then◌else◌};
ghost use Rattle.std.specs.Prelude.{length, map, drop, IfOk, OnOk};
ghost use Rattle.ch_depends.specs.Depends.{pair_of};
ghost use Rattle.ch_depends.specs.declared.answers.PiecePair.{PiecePair};
ghost use Rattle.ch_order.specs.Legal.{AreAmong};
ghost use Rattle.ch_reduce.specs.FreePairs.{AreFreePairs, Ascends, IsFreePair, pairs_with};
ghost use Rattle.ch_reduce.specs.Relaxed.{bodies_add_to_one, relaxed_reversed};
ghost use Rattle.ch_timed.specs.Members.{In};

use crate::accumulation::accumulates;
use ch_affine::List;
use ch_depends::{Pair, PiecePair, reversed_but};
use ch_nest::Body;
use ch_space::{Piece, Space};
use std::alloc::{AllocError, Global};

/// Whether both bodies accumulate and write one array.
pub(crate) fn bodies_add_to_one(a: &Body, b: &Body) -> bool
    ensures { result ≡ bodies_add_to_one a.now b.now }
{
    accumulates(a) && accumulates(b) && a.write.array == b.write.array
}

/// Adds the pair where both bodies accumulate and write one array.
fn push_pair(
    piece: &Piece,
    other: &Piece,
    pair: PiecePair,
    pairs: &mut List<PiecePair>,
) -> Result<(), AllocError>
    ensures { OnOk result (pairs.new ≡ pairs.old
        ++ (if bodies_add_to_one piece.now.body other.now.body then pair ∷ [] else [])) }
{
    if bodies_add_to_one(&piece.body, &other.body) {
        return pairs.push(pair);
    }
    Ok(())
}

/// Adds the pairs of a piece, whose number is `one`, with the pieces from itself on.
fn push_pairs(
    piece: &Piece,
    one: u32,
    pieces: &[Piece],
    pairs: &mut List<PiecePair>,
) -> Result<(), AllocError>
    requires { length pieces.now ≤ 256 }
    ensures { OnOk result (pairs.new ≡ pairs.old
        ++ pairs_with one piece.now.body one (drop one (map (λ p. p.body) pieces.now))) }
{
    for other in one..pieces.len() as u32 {
        let next = &pieces[other as usize];
        push_pair(piece, next, PiecePair { one, other }, pairs)?;
    }
    Ok(())
}

/// The pairs of pieces, by their numbers, whose bodies both accumulate and write one array; a piece
/// that accumulates is a pair with itself. `Err` where memory runs out.
///
/// Elements of such pieces may change places, since a wrapping sum is the same in any order.
pub fn free_pairs(alloc: Global, space: &Space) -> Result<List<PiecePair>, AllocError>
    ensures ascending { IfOk result Ascends }
    ensures exactly { IfOk result (λ pairs. (p : PiecePair) → In p pairs
        ↔ IsFreePair space.now.list p) }
    ensures free { IfOk result (AreFreePairs space.now.list) }
{
    let pieces = space.pieces.as_slice();
    let mut pairs = List::new(alloc);
    for one in 0..pieces.len() {
        let piece = &pieces[one];
        push_pairs(piece, one as u32, pieces, &mut pairs)?;
    }
    Ok(pairs)
}

/// The least pair of elements in free conflict that the new space has the other way round: that of
/// the least first element, and then of the least second one. None exactly where there is none.
/// `Err` where memory runs out.
pub fn reversed_sum(alloc: Global, old: &Space, new: &Space) -> Result<Option<Pair>, AllocError>
    requires kept { AreAmong old.now.list new.now.list }
    ensures { IfOk result (λ pair. pair ≡ pair_of (relaxed_reversed old.now.list new.now.list)) }
{
    let free = free_pairs(alloc, old)?;
    reversed_but(alloc, old, new, free.as_slice())
}
