//! What a space tells of its pieces. A piece is given by its number: the k-th of the pieces in the
//! order of their places, from 0.

ghost use Rattle.std.specs.Prelude.{◌≡◌, ◌<◌, ◌^◌, ℕ, pos, map, length, IfOk};
ghost use Rattle.std.specs.List.{All, sum};
ghost use Rattle.ch_timed.specs.Groups.{piece};
ghost use Rattle.ch_timed.specs.Timed.{pieces};
ghost use Rattle.ch_timed.specs.Vectors.{shares};
ghost use Rattle.ch_space.specs.Members.{group, members, sharing};
ghost use Rattle.ch_space.specs.Keeps.{places_of};

use crate::piece::Piece;
use crate::space::Space;
use ch_affine::List;
use ch_timed::Label;
use std::alloc::{AllocError, Global};

/// The number of elements of the list.
pub fn count(space: &Space) -> u64
    ensures { result ≡ length space.now.list }
{
    total(space.counts.as_slice())
}

fn total(counts: &[u64]) -> u64
    requires { sum counts.now < 2 ^ 64 }
    ensures { result ≡ sum counts.now }
{
    let mut total = 0;
    for count in counts {
        total += *count;
    }
    total
}

/// How many pieces there are.
pub fn pieces(space: &Space) -> u32
    ensures { result ≡ length (pieces space.now.list) }
{
    space.pieces.len() as u32
}

/// The number of elements of one piece.
pub fn piece_count(space: &Space, number: u32) -> u64
    requires { number < length (pieces space.now.list) }
    ensures { result ≡ length (members space.now.list number) }
{
    space.counts.as_slice()[number as usize]
}

/// The places of a piece, one more than it has levels.
pub fn places(space: &Space, number: u32) -> &[u32]
    requires { number < length (pieces space.now.list) }
    ensures { map pos result.now ≡ piece space.now.list number }
{
    space.pieces.as_slice()[number as usize].places.as_slice()
}

/// The label of a piece's elements.
pub fn label(space: &Space, number: u32) -> Label
    requires { number < length (pieces space.now.list) }
    ensures { All (λ e. e.identity.label ≡ result) (members space.now.list number) }
{
    space.pieces.as_slice()[number as usize].label
}

/// The numbers, ascending, of the pieces that share a level with a piece, itself among them. There
/// are none where the piece doesn't have that level.
pub fn group(alloc: Global, space: &Space, number: u32, level: u32) -> Result<List<u32>, AllocError>
    requires { number < length (pieces space.now.list) }
    ensures { IfOk result (λ numbers. numbers ≡ group space.now.list number level) }
{
    let all = space.pieces.as_slice();
    let ours = all[number as usize].places.as_slice();
    numbers_sharing(alloc, all, ours, level as usize)
}

fn numbers_sharing(
    alloc: Global,
    all: &[Piece],
    ours: &[u32],
    level: usize,
) -> Result<List<u32>, AllocError>
    requires { length all.now < 2 ^ 32 }
    ensures { IfOk result (λ numbers.
        numbers ≡ sharing level (map pos ours.now) (map places_of all.now)) }
{
    let mut numbers = List::new(alloc);
    for k in 0..all.len() {
        if share(level, ours, all[k].places.as_slice()) {
            numbers.push(k as u32)?;
        }
    }
    Ok(numbers)
}

/// Whether both places have that level, and begin alike up to it.
pub fn share(level: usize, ours: &[u32], theirs: &[u32]) -> bool
    ensures { result ≡ shares level (map pos ours.now) (map pos theirs.now) }
{
    if ours.len() <= level || theirs.len() <= level {
        return false;
    }
    ours[..level] == theirs[..level]
}
