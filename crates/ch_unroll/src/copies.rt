//! Candidates for the pieces of an unrolled loop, and for the other pieces.

ghost use Rattle.std.specs.Prelude.{◌≡◌, ◌<◌, pos, true, length, map, IfOk, OnOk};
ghost use Rattle.std.specs.List.{All};
ghost use Rattle.ch_space.specs.Pieces.{instances};
ghost use Rattle.ch_unroll.specs.Copies.{AllBecome, Becomes, IsCopy, IsTurn};
ghost use Rattle.ch_unroll.specs.Copies.{PushesOn, IsPlaced, ArePlaced};

use crate::layout::Layout;
use crate::turn::{offset_places, turn_piece};
use ch_affine::List;
use ch_pieces::{Candidate, wide_places};
use ch_space::copies::copied_piece;
use ch_space::{Piece, share};
use std::alloc::{AllocError, Global};

/// The piece as it is, with so many instances.
fn copy(alloc: Global, piece: &Piece, count: u64) -> Result<Candidate, AllocError>
    requires { count ≡ length (instances piece.now) }
    ensures { IfOk result (IsCopy piece.now) }
{
    Ok(Candidate {
        piece: copied_piece(alloc, piece)?,
        places: wide_places(alloc, piece.places.as_slice())?,
        count: Some(count),
    })
}

/// The copy of the piece for the turns that leave the remainder.
fn turn(
    alloc: Global,
    piece: &Piece,
    layout: Layout,
    remainder: u32,
) -> Result<Candidate, AllocError>
    requires placed { IsPlaced layout piece.now }
    requires remainder { remainder < layout.amount }
    ensures { IfOk result (IsTurn layout piece.now remainder) }
{
    let offset = u64::from(remainder) * layout.width;
    Ok(Candidate {
        piece: turn_piece(alloc, piece, layout.level - 1, layout.amount, remainder)?,
        places: offset_places(alloc, piece.places.as_slice(), layout.behind, offset)?,
        count: None,
    })
}

/// Adds the copies of the piece, one for each remainder.
fn push_turns(
    alloc: Global,
    candidates: &mut List<Candidate>,
    piece: &Piece,
    layout: Layout,
) -> Result<(), AllocError>
    requires placed { IsPlaced layout piece.now }
    ensures { OnOk result (PushesOn (Becomes true layout piece.now) candidates.old candidates.new) }
{
    for remainder in 0..layout.amount {
        candidates.push(turn(alloc, piece, layout, remainder)?)?;
    }
    Ok(())
}

/// Adds what becomes of the piece, which is copied for each remainder where it is unrolled.
fn push_piece(
    alloc: Global,
    candidates: &mut List<Candidate>,
    piece: &Piece,
    count: u64,
    is_unrolled: bool,
    layout: Layout,
) -> Result<(), AllocError>
    requires count { count ≡ length (instances piece.now) }
    requires placed { is_unrolled ≡ true → IsPlaced layout piece.now }
    ensures { OnOk result (PushesOn (Becomes is_unrolled layout piece.now) candidates.old candidates.new) }
{
    if is_unrolled {
        push_turns(alloc, candidates, piece, layout)
    } else {
        candidates.push(copy(alloc, piece, count)?)
    }
}

/// Candidates for the pieces with these counts, those that share the level with our places being
/// copied for each remainder.
pub(crate) fn copies(
    alloc: Global,
    pieces: &[Piece],
    counts: &[u64],
    ours: &[u32],
    layout: Layout,
) -> Result<List<Candidate>, AllocError>
    requires counted { counts.now ≡ map (λ p. length (instances p)) pieces.now }
    requires placed { All (ArePlaced layout (map pos ours.now)) pieces.now }
    ensures { IfOk result (AllBecome layout (map pos ours.now) pieces.now) }
{
    let mut candidates = List::new(alloc);
    for k in 0..pieces.len() {
        let piece = &pieces[k];
        let is_unrolled = share(layout.level, ours, piece.places.as_slice());
        push_piece(
            alloc,
            &mut candidates,
            piece,
            counts[k],
            is_unrolled,
            layout,
        )?;
    }
    Ok(candidates)
}
