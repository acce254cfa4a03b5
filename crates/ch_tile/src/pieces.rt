//! Tiled pieces. Levels are counted from 0.

ghost use Rattle.std.specs.Prelude.{◌≡◌, ◌<◌, ◌≤◌, true, IfOk};
ghost use Rattle.ch_moved.specs.Room.{HasRoom};
ghost use Rattle.ch_space.specs.Keeps.{IsWhole};
ghost use Rattle.ch_tile.specs.Pieces.{Becomes, IsTiled};

use crate::layout::{tile_rows, tiled_boxes, tiled_places, untiled};
use ch_moved::reindexed;
use ch_space::Piece;
use ch_space::copies::copied_piece;
use std::alloc::{AllocError, Global};

/// The piece with a new level at `outer`, which counts the tiles of that size in which the values
/// of `level` lie.
fn tiled_piece(
    alloc: Global,
    piece: &Piece,
    level: usize,
    size: u32,
    outer: usize,
) -> Result<Piece, AllocError>
    requires whole { IsWhole piece.now }
    requires room { HasRoom 1 piece.now }
    requires levels { piece.now.levels < 10 }
    requires outer { outer ≤ level }
    requires level { level < piece.now.levels }
    requires some { 1 ≤ size }
    requires small { size ≤ 4096 }
    ensures { IfOk result (IsTiled level size outer piece.now) }
{
    let levels = piece.levels as usize;
    let old = &piece.system.boxes.as_slice()[..levels];
    let forms = untiled(alloc, levels, outer)?;
    let boxes = tiled_boxes(alloc, old, outer, level, size)?;
    let rows = tile_rows(alloc, levels, outer, level, size)?;
    let places = tiled_places(alloc, piece.places.as_slice(), outer + 1)?;
    reindexed(
        alloc,
        piece,
        forms.as_slice(),
        boxes,
        rows.as_slice(),
        places,
    )
}

/// The piece, tiled where it is inside the new loop.
pub(crate) fn tiled_if(
    alloc: Global,
    piece: &Piece,
    is_inside: bool,
    level: usize,
    size: u32,
    outer: usize,
) -> Result<Piece, AllocError>
    requires whole { IsWhole piece.now }
    requires room { HasRoom 1 piece.now }
    requires levels { is_inside ≡ true → piece.now.levels < 10 }
    requires outer { outer ≤ level }
    requires level { is_inside ≡ true → level < piece.now.levels }
    requires some { 1 ≤ size }
    requires small { size ≤ 4096 }
    ensures { IfOk result (Becomes is_inside level size outer piece.now) }
{
    if is_inside {
        tiled_piece(alloc, piece, level, size, outer)
    } else {
        copied_piece(alloc, piece)
    }
}
