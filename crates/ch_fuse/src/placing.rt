//! Places of pieces, and pieces at other places.

ghost use Rattle.std.specs.Prelude.{◌≡◌, pos, length, map, take, IfOk};
ghost use Rattle.ch_fuse.specs.Fused.{place_at};
ghost use Rattle.ch_fuse.specs.Replaced.{IsPlaced};
ghost use Rattle.ch_moved.specs.Arguments.{natural};
ghost use Rattle.ch_space.specs.Pieces.{instances};
ghost use Rattle.ch_timed.specs.Vectors.{same_numbers};

use ch_affine::List;
use ch_pieces::Candidate;
use ch_space::Piece;
use ch_space::copies::copied_piece;
use std::alloc::{AllocError, Global};

/// The level as a number of levels, 0 for a negative one.
pub(crate) fn natural(level: i64) -> usize
    ensures { result ≡ natural level }
{
    if level < 0 { 0 } else { level as usize }
}

/// The place of that number, or 0 where there is none.
pub(crate) fn place_at(number: usize, places: &[u32]) -> u32
    ensures { pos result ≡ place_at number (map pos places.now) }
{
    if number < places.len() {
        places[number]
    } else {
        0
    }
}

/// Whether the first places, so many where there are as many, are the same.
pub(crate) fn begin_alike(count: usize, ours: &[u32], theirs: &[u32]) -> bool
    ensures { result ≡ same_numbers (take count (map pos ours.now)) (take count (map pos theirs.now)) }
{
    ours[..count.min(ours.len())] == theirs[..count.min(theirs.len())]
}

/// The piece at other places.
pub(crate) fn placed(
    alloc: Global,
    piece: &Piece,
    places: List<u64>,
    count: u64,
) -> Result<Candidate, AllocError>
    requires { count ≡ length (instances piece.now) }
    ensures { IfOk result (IsPlaced (map pos places) piece.now) }
{
    Ok(Candidate {
        piece: copied_piece(alloc, piece)?,
        places,
        count: Some(count),
    })
}
