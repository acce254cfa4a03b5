//! What the pieces of a group use of an array.

ghost use Rattle.std.specs.Prelude.{◌≡◌, ◌≤◌, ◌<◌, ◌^◌, ◌++◌, pos, length, map, IfOk, OnOk};
ghost use Rattle.std.specs.List.{All};
ghost use Rattle.ch_datacopy.specs.Sources.{AddsCells, AreReady, IsReady, accesses_by, from_piece, sources};

use crate::accesses::{read_accesses, written_accesses};
use crate::cells::{Cells, cells_of, forms_of};
use ch_affine::List;
use ch_nest::{Access, Body};
use ch_space::{Piece, share};
use std::alloc::{AllocError, Global};

/// Which accesses of an array are meant.
#[derive(Clone, Copy, Debug, PartialEq, Eq)]
pub(crate) enum Way {
    Read,
    Written,
}

/// The accesses of this array, around whose loop stand so many others.
#[derive(Clone, Copy, Debug)]
pub(crate) struct Chosen {
    pub(crate) way: Way,
    pub(crate) array: u32,
    pub(crate) around: usize,
}

fn accesses(alloc: Global, way: Way, array: u32, body: &Body) -> Result<List<Access>, AllocError>
    ensures { IfOk result (λ found. found ≡ accesses_by way array body.now) }
{
    match way {
        Way::Read => read_accesses(alloc, array, body),
        Way::Written => written_accesses(alloc, array, body),
    }
}

/// Adds what the piece uses by these accesses of its body.
fn push_cells(
    alloc: Global,
    all: &mut List<Cells>,
    around: usize,
    piece: &Piece,
    accesses: &[Access],
) -> Result<(), AllocError>
    requires ready { All (IsReady around piece.now) accesses.now }
    ensures { OnOk result (AddsCells around (from_piece piece.now accesses.now) all.old all.new) }
{
    for access in accesses {
        let forms = forms_of(alloc, access.subs.as_slice())?;
        all.push(cells_of(alloc, piece, around, forms.as_slice())?)?;
    }
    Ok(())
}

/// Adds what the piece uses of the array.
fn push_used(
    alloc: Global,
    all: &mut List<Cells>,
    chosen: Chosen,
    piece: &Piece,
) -> Result<(), AllocError>
    requires ready { All (IsReady chosen.around piece.now)
        (accesses_by chosen.way chosen.array piece.now.body) }
    ensures { OnOk result (AddsCells chosen.around
        (from_piece piece.now (accesses_by chosen.way chosen.array piece.now.body))
        all.old all.new) }
{
    let accesses = accesses(alloc, chosen.way, chosen.array, &piece.body)?;
    push_cells(alloc, all, chosen.around, piece, accesses.as_slice())
}

/// Adds what the pieces that share the loop with these places use of the array, piece by piece.
pub(crate) fn push_uses(
    alloc: Global,
    all: &mut List<Cells>,
    chosen: Chosen,
    ours: &[u32],
    pieces: &[Piece],
) -> Result<(), AllocError>
    requires deep { chosen.around < 2 ^ 32 }
    requires ready { All (AreReady chosen.around chosen.way chosen.array (map pos ours.now))
        pieces.now }
    ensures { OnOk result (AddsCells chosen.around
        (sources chosen.way chosen.array (map pos ours.now) chosen.around pieces.now)
        all.old all.new) }
{
    for piece in pieces {
        if share(chosen.around + 1, ours, piece.places.as_slice()) {
            push_used(alloc, all, chosen, piece)?;
        }
    }
    Ok(())
}
