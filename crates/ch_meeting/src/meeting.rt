//! Whether the accesses of an element of one piece and of a later one of another name one cell.

ghost use Rattle.std.specs.Prelude.{◌≡◌, ◌≤◌, ◌<◌, ◌↔◌, ℕ, ℤ, List};
ghost use Rattle.std.specs.Prelude.{length, pos, IfOk, IsTrue, OnOk};
ghost use Rattle.std.specs.List.{All};
ghost use Rattle.ch_affine.specs.Rows.{lies_in};
ghost use Rattle.ch_meeting.specs.Asked.{AreMeeting, AsksMeeting, MeetsBy, MeetsByAt};
ghost use Rattle.ch_meeting.specs.Asked.{cells_end, meeting_boxes, pair_size};
ghost use Rattle.ch_meeting.specs.Cases.{IsWithin, OneOf};
ghost use Rattle.ch_meeting.specs.Drafts.{IsDraft, Narrows};
ghost use Rattle.ch_meeting.specs.Meeting.{AreAccessesOf, AreAlike, IsPlain, MeetsAt};
ghost use Rattle.ch_poly.specs.Boxes.{at};
ghost use Rattle.ch_space.specs.Keeps.{IsWhole};

use crate::cells::{Site, Sites, same_cell};
use crate::draft::Draft;
use crate::layout::{push_cells, push_pair};
use crate::orders::{Order, orders, put_in_order};
use crate::placing::{place_pair, tie_pair};
use crate::question::{TwoAccesses, are_alike};
use ch_affine::{List, Range};
use ch_space::Piece;
use std::alloc::{AllocError, Global};

fn meeting_ranges(
    alloc: Global,
    first: &Piece,
    second: &Piece,
    accesses: &TwoAccesses,
) -> Result<List<Range>, AllocError>
    requires first { IsWhole first.now }
    requires second { IsWhole second.now }
    ensures { IfOk result (λ boxes. boxes ≡ meeting_boxes first.now second.now
        accesses.now.first.now accesses.now.second.now) }
{
    let mut boxes = List::new(alloc);
    push_pair(&mut boxes, first, second)?;
    push_cells(
        &mut boxes,
        first.origin.len(),
        second.origin.len(),
        accesses,
    )?;
    Ok(boxes)
}

/// Asks for points at which the accesses name one cell, where the iterators of both elements stand
/// from `iters` on.
pub(crate) fn ask_meeting(
    alloc: Global,
    draft: &mut Draft,
    first: &Piece,
    second: &Piece,
    accesses: &TwoAccesses,
    iters: usize,
) -> Result<(), AllocError>
    requires draft { IsDraft draft.old }
    requires first { IsPlain first.now }
    requires second { IsPlain second.now }
    requires accesses { AreAccessesOf first.now second.now accesses.now }
    requires alike { AreAlike accesses.now }
    requires after { pair_size first.now second.now ≤ iters }
    requires inside { cells_end first.now second.now accesses.now.first.now
        accesses.now.second.now iters < length draft.old.boxes }
    requires unit { (z : List ℤ) → IsTrue (lies_in draft.old.boxes z)
        → at z (cells_end first.now second.now accesses.now.first.now
        accesses.now.second.now iters) ≡ pos 1 }
    ensures { OnOk result (Narrows draft.old draft.new (AreMeeting first.now second.now
        accesses.now.first.now accesses.now.second.now iters)) }
{
    let count = accesses.first.subs.len();
    let others = iters + first.origin.len();
    let turns = others + second.origin.len();
    let here = Site { iters, turns };
    let there = Site {
        iters: others,
        turns: turns + count,
    };
    let one = turns + count + accesses.second.subs.len();
    tie_pair(alloc, draft, first, second, 0, iters)?;
    same_cell(alloc, draft, accesses, Sites { here, there, one })?;
    place_pair(alloc, draft, first, second, 0)
}

/// What is asked of two elements in whatever order they are.
pub(crate) fn meeting_draft(
    alloc: Global,
    first: &Piece,
    second: &Piece,
    accesses: &TwoAccesses,
) -> Result<Draft, AllocError>
    requires first { IsPlain first.now }
    requires second { IsPlain second.now }
    requires accesses { AreAccessesOf first.now second.now accesses.now }
    requires alike { AreAlike accesses.now }
    ensures { IfOk result (AsksMeeting first.now second.now accesses.now) }
{
    first.system.known();
    second.system.known();
    let boxes = meeting_ranges(alloc, first, second, accesses)?;
    let mut draft = Draft::new(alloc, boxes);
    let iters = (first.levels + second.levels + first.hidden + second.hidden) as usize;
    ask_meeting(alloc, &mut draft, first, second, accesses, iters)?;
    Ok(draft)
}

/// Whether some elements in the order meet.
pub(crate) fn meets_in_order(
    alloc: Global,
    first: &Piece,
    second: &Piece,
    accesses: &TwoAccesses,
    draft: &mut Draft,
    order: Order,
) -> Result<bool, AllocError>
    requires first { IsPlain first.now }
    requires second { IsPlain second.now }
    requires accesses { AreAccessesOf first.now second.now accesses.now }
    requires alike { AreAlike accesses.now }
    requires asks { AsksMeeting first.now second.now accesses.now draft.old }
    requires within { IsWithin first.now.levels second.now.levels order }
    ensures draft { OnOk result (draft.new ≡ draft.old) }
    ensures answer { IfOk result (λ answer. IsTrue answer ↔ MeetsBy order first.now second.now
        accesses.now.first.now accesses.now.second.now) }
{
    let rows = draft.rows.len();
    put_in_order(alloc, draft, order, 0, first.levels as usize)?;
    let least = draft.least(alloc)?;
    draft.keep_rows(rows);
    Ok(least.is_some())
}

/// The same, where nothing was asked yet.
fn meets_by(
    alloc: Global,
    first: &Piece,
    second: &Piece,
    accesses: &TwoAccesses,
    order: Order,
) -> Result<bool, AllocError>
    requires first { IsPlain first.now }
    requires second { IsPlain second.now }
    requires accesses { AreAccessesOf first.now second.now accesses.now }
    requires alike { AreAlike accesses.now }
    requires within { IsWithin first.now.levels second.now.levels order }
    ensures { IfOk result (λ answer. IsTrue answer ↔ MeetsBy order first.now second.now
        accesses.now.first.now accesses.now.second.now) }
{
    let mut draft = meeting_draft(alloc, first, second, accesses)?;
    if draft.is_excluded(alloc) {
        return Ok(false);
    }
    meets_in_order(alloc, first, second, accesses, &mut draft, order)
}

/// Whether the order has that level, and some elements in it meet.
fn meets_by_at(
    alloc: Global,
    first: &Piece,
    second: &Piece,
    accesses: &TwoAccesses,
    order: Order,
    level: u32,
) -> Result<bool, AllocError>
    requires first { IsPlain first.now }
    requires second { IsPlain second.now }
    requires accesses { AreAccessesOf first.now second.now accesses.now }
    requires alike { AreAlike accesses.now }
    requires within { IsWithin first.now.levels second.now.levels order }
    ensures { IfOk result (λ answer. IsTrue answer ↔ MeetsByAt level first.now second.now
        accesses.now.first.now accesses.now.second.now order) }
{
    if order.level() != level {
        return Ok(false);
    }
    meets_by(alloc, first, second, accesses, order)
}

/// Whether some elements in one of the orders meet that has this level.
fn meets_among(
    alloc: Global,
    first: &Piece,
    second: &Piece,
    accesses: &TwoAccesses,
    orders: &[Order],
    level: u32,
) -> Result<bool, AllocError>
    requires first { IsPlain first.now }
    requires second { IsPlain second.now }
    requires accesses { AreAccessesOf first.now second.now accesses.now }
    requires alike { AreAlike accesses.now }
    requires within { All (IsWithin first.now.levels second.now.levels) orders.now }
    ensures { IfOk result (λ answer. IsTrue answer ↔ OneOf (MeetsByAt level first.now second.now
        accesses.now.first.now accesses.now.second.now) orders.now) }
{
    for order in orders {
        if meets_by_at(alloc, first, second, accesses, *order, level)? {
            return Ok(true);
        }
    }
    Ok(false)
}

/// Whether the accesses of an element of `first` and of a later one of `second` name one cell,
/// where the vectors of the two first differ at that level (0 for a place).
pub fn meets_at(
    alloc: Global,
    first: &Piece,
    second: &Piece,
    accesses: &TwoAccesses,
    level: u32,
) -> Result<bool, AllocError>
    requires first { IsPlain first.now }
    requires second { IsPlain second.now }
    requires accesses { AreAccessesOf first.now second.now accesses.now }
    ensures { IfOk result (λ answer. IsTrue answer ↔ MeetsAt first.now second.now
        accesses.now.first.now accesses.now.second.now level) }
{
    if !are_alike(accesses) {
        return Ok(false);
    }
    let ways = orders(alloc, first.places.as_slice(), second.places.as_slice())?;
    meets_among(alloc, first, second, accesses, ways.as_slice(), level)
}
