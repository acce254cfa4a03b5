//! What a question is about: pieces of two lists, and two accesses.

ghost use Rattle.std.specs.Prelude.{◌≡◌, IsTrue, false};
ghost use Rattle.ch_meeting.specs.Meeting.{AreAlike, AreComparable};

use ch_nest::Access;
use ch_space::Piece;

/// Two pieces of a list, and two of another list that may have their elements.
#[derive(Clone, Copy)]
pub struct FourPieces<'a> {
    pub first: &'a Piece,
    pub second: &'a Piece,
    pub new_first: &'a Piece,
    pub new_second: &'a Piece,
}

/// An access of a first piece's body, and one of a second's.
#[derive(Clone, Copy)]
pub struct TwoAccesses<'a> {
    pub first: &'a Access,
    pub second: &'a Access,
}

/// Whether both accesses name one array with equally many subscripts: others never name one cell.
pub(crate) fn are_alike(accesses: &TwoAccesses) -> bool
    ensures yes { IsTrue result → AreAlike accesses.now }
    ensures no { result ≡ false → AreAlike accesses.now → ⊥ }
{
    accesses.first.array == accesses.second.array
        && accesses.first.subs.len() == accesses.second.subs.len()
}

/// Whether the new pieces have as many iterators as those whose elements they may have: others have
/// none of them.
pub(crate) fn are_comparable(pieces: &FourPieces) -> bool
    ensures yes { IsTrue result → AreComparable pieces.now }
    ensures no { result ≡ false → AreComparable pieces.now → ⊥ }
{
    pieces.new_first.origin.len() == pieces.first.origin.len()
        && pieces.new_second.origin.len() == pieces.second.origin.len()
}
