//! Whether two pieces have elements with the same iterators.

ghost use Rattle.std.specs.Prelude.{◌≡◌, ◌≤◌, ◌+◌, ◌↔◌, length, IfOk, IsTrue, OnOk};
ghost use Rattle.ch_meeting.specs.Asked.{AreCommon, Asks, common_boxes, pair_size};
ghost use Rattle.ch_meeting.specs.Drafts.{IsDraft, Narrows};
ghost use Rattle.ch_meeting.specs.Meeting.{HaveCommon, IsPlain};
ghost use Rattle.ch_space.specs.Keeps.{IsWhole};

use crate::draft::Draft;
use crate::layout::{push_pair, push_wides};
use crate::placing::{place_pair, tie};
use ch_affine::{List, Range};
use ch_space::Piece;
use std::alloc::{AllocError, Global};

fn common_ranges(alloc: Global, first: &Piece, second: &Piece) -> Result<List<Range>, AllocError>
    requires first { IsWhole first.now }
    requires second { IsWhole second.now }
    ensures { IfOk result (λ boxes. boxes ≡ common_boxes first.now second.now) }
{
    let mut boxes = List::new(alloc);
    push_pair(&mut boxes, first, second)?;
    push_wides(&mut boxes, first.origin.len())?;
    Ok(boxes)
}

/// Asks for points at which both pieces have the same iterators.
fn ask_common(
    alloc: Global,
    draft: &mut Draft,
    first: &Piece,
    second: &Piece,
) -> Result<(), AllocError>
    requires draft { IsDraft draft.old }
    requires first { IsWhole first.now }
    requires second { IsWhole second.now }
    requires same { length first.now.origin ≡ length second.now.origin }
    requires inside { pair_size first.now second.now + length first.now.origin
        ≤ length draft.old.boxes }
    ensures { OnOk result (Narrows draft.old draft.new (AreCommon first.now second.now)) }
{
    let iters = (first.levels + second.levels + first.hidden + second.hidden) as usize;
    tie(alloc, draft, first, 0, iters)?;
    tie(alloc, draft, second, first.levels as usize, iters)?;
    place_pair(alloc, draft, first, second, 0)
}

fn common_draft(alloc: Global, first: &Piece, second: &Piece) -> Result<Draft, AllocError>
    requires first { IsPlain first.now }
    requires second { IsPlain second.now }
    requires same { length first.now.origin ≡ length second.now.origin }
    ensures { IfOk result (λ draft. Asks draft (common_boxes first.now second.now)
        (AreCommon first.now second.now)) }
{
    first.system.known();
    second.system.known();
    let boxes = common_ranges(alloc, first, second)?;
    let mut draft = Draft::new(alloc, boxes);
    ask_common(alloc, &mut draft, first, second)?;
    Ok(draft)
}

/// Whether some elements of both pieces have the same iterators.
pub fn have_common(alloc: Global, first: &Piece, second: &Piece) -> Result<bool, AllocError>
    requires first { IsPlain first.now }
    requires second { IsPlain second.now }
    ensures { IfOk result (λ answer. IsTrue answer ↔ HaveCommon first.now second.now) }
{
    if first.origin.len() != second.origin.len() {
        return Ok(false);
    }
    let mut draft = common_draft(alloc, first, second)?;
    if draft.is_excluded(alloc) {
        return Ok(false);
    }
    Ok(draft.least(alloc)?.is_some())
}
