//! The cells that an access of a piece uses.

ghost use Rattle.std.specs.Prelude.{◌≡◌, ◌≢◌, ◌≤◌, ◌+◌, ◌-◌, ◌++◌, [], length, map, take, drop, IfOk, OnOk};
ghost use Rattle.std.specs.List.{All};
ghost use Rattle.ch_datacopy.specs.Cells.{use_boxes, use_rows};
ghost use Rattle.ch_datacopy.specs.Used.{AreNear, IsCellsOf, IsFit};
ghost use Rattle.ch_space.specs.Keeps.{IsWhole};

use crate::ranges::ranges_of;
use crate::rows::{Frame, push_cells, push_iterators, push_kept};
use ch_affine::{Aff, LARGEST_END, List, Range, System};
use ch_nest::Sub;
use ch_space::Piece;
use std::alloc::{AllocError, Global};

/// The greatest magnitude of a subscript.
const MOST_SUBSCRIPT: u64 = 1 << 18;

/// Cells, each behind the values of the loops around: the first variables of a system have both.
#[derive(Debug, Drop)]
pub(crate) struct Cells {
    pub(crate) levels: u32,
    pub(crate) hidden: u32,
    pub(crate) system: System,
}

/// The forms of subscripts.
pub(crate) fn forms_of(alloc: Global, subs: &[Sub]) -> Result<List<Aff>, AllocError>
    ensures { IfOk result (λ forms. forms ≡ map (λ s. s.form) subs.now) }
{
    let mut forms = List::with_capacity(alloc, subs.len())?;
    for sub in subs {
        forms.push(sub.form.copied(alloc)?)?;
    }
    Ok(forms)
}

pub(crate) fn push_ranges(ranges: &mut List<Range>, more: &[Range]) -> Result<(), AllocError>
    ensures { OnOk result (ranges.new ≡ ranges.old ++ more.now) }
{
    for range in more {
        ranges.push(*range)?;
    }
    Ok(())
}

/// The ranges of the variables.
fn use_boxes(
    alloc: Global,
    piece: &Piece,
    around: usize,
    cells: &[Range],
    iters: &[Range],
) -> Result<List<Range>, AllocError>
    requires { around ≤ length piece.now.system.boxes }
    ensures { IfOk result (λ boxes. boxes ≡ use_boxes piece.now around cells.now iters.now) }
{
    let old = piece.system.boxes.as_slice();
    let mut boxes = List::new(alloc);
    push_ranges(&mut boxes, &old[..around])?;
    push_ranges(&mut boxes, cells)?;
    push_ranges(&mut boxes, &old[around..])?;
    push_ranges(&mut boxes, iters)?;
    Ok(boxes)
}

/// The rows that tie the iterators to the levels and the subscripts to the iterators, behind those
/// of the piece.
fn use_rows(
    alloc: Global,
    frame: Frame,
    piece: &Piece,
    forms: &[Aff],
) -> Result<List<Aff>, AllocError>
    requires whole { IsWhole piece.now }
    requires fit { IsFit frame piece.now forms.now }
    ensures { IfOk result (λ rows. rows ≡ use_rows piece.now frame.around forms.now) }
{
    let mut rows = List::new(alloc);
    push_kept(alloc, &mut rows, frame, piece.system.rows.as_slice())?;
    push_iterators(
        alloc,
        &mut rows,
        frame,
        piece.levels as usize,
        piece.origin.as_slice(),
    )?;
    push_cells(alloc, &mut rows, frame, forms)?;
    Ok(rows)
}

/// The cells that an access of the piece uses whose subscripts are these forms, each behind the
/// values of so many loops.
pub(crate) fn cells_of(
    alloc: Global,
    piece: &Piece,
    around: usize,
    forms: &[Aff],
) -> Result<Cells, AllocError>
    requires whole { IsWhole piece.now }
    requires around { around ≤ piece.now.levels }
    requires few { piece.now.levels + piece.now.hidden ≤ 1024 }
    requires iterators { length piece.now.origin ≤ 10 }
    requires dimensions { length forms.now ≤ 4 }
    requires long { All (λ f. length f.coefs ≡ length piece.now.origin) forms.now }
    requires near { AreNear piece.now forms.now }
    ensures { IfOk result (IsCellsOf piece.now around forms.now) }
{
    let boxes = piece.system.boxes.as_slice();
    let levels = piece.levels as usize;
    let frame = Frame {
        around,
        cells: forms.len(),
        inner: levels + piece.hidden as usize - around,
        iters: piece.origin.len(),
    };
    let iters = ranges_of(
        alloc,
        &boxes[..levels],
        piece.origin.as_slice(),
        LARGEST_END as u64,
    )?;
    let cells = ranges_of(alloc, iters.as_slice(), forms, MOST_SUBSCRIPT)?;
    let boxes = use_boxes(alloc, piece, around, cells.as_slice(), iters.as_slice())?;
    let rows = use_rows(alloc, frame, piece, forms)?;
    let hidden = frame.inner + frame.iters;
    Ok(Cells {
        levels: (frame.around + frame.cells) as u32,
        hidden: hidden as u32,
        system: System {
            vars: boxes.len() as u32,
            rows,
            boxes,
        },
    })
}
