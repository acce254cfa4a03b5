//! What a copy moves.

ghost use Rattle.std.specs.Prelude.{◌<◌, ◌^◌, pos, map, IfOk};
ghost use Rattle.std.specs.List.{All};
ghost use Rattle.ch_datacopy.specs.declared.uses.Way.TheVariants.{Read, Written};
ghost use Rattle.ch_datacopy.specs.Moved.{AreMoves};
ghost use Rattle.ch_datacopy.specs.Sources.{AreReady};

use crate::cells::Cells;
use crate::uses::{Chosen, Way, push_uses};
use ch_affine::List;
use ch_space::Piece;
use std::alloc::{AllocError, Global};

/// The cells that are moved, access by access: so many into the buffer, and then those back.
#[derive(Debug, Drop)]
pub(crate) struct Moves {
    pub(crate) ins: usize,
    pub(crate) all: List<Cells>,
}

/// What is moved for the pieces that share the loop with these places, around which stand so many
/// others.
pub(crate) fn all_moves(
    alloc: Global,
    pieces: &[Piece],
    ours: &[u32],
    around: usize,
    array: u32,
) -> Result<Moves, AllocError>
    requires deep { around < 2 ^ 32 }
    requires reads { All (AreReady around Read array (map pos ours.now)) pieces.now }
    requires writes { All (AreReady around Written array (map pos ours.now)) pieces.now }
    ensures { IfOk result (AreMoves pieces.now (map pos ours.now) around array) }
{
    let mut all = List::new(alloc);
    let reads = Chosen {
        way: Way::Read,
        array,
        around,
    };
    push_uses(alloc, &mut all, reads, ours, pieces)?;
    let ins = all.len();
    let writes = Chosen {
        way: Way::Written,
        array,
        around,
    };
    push_uses(alloc, &mut all, writes, ours, pieces)?;
    Ok(Moves { ins, all })
}
