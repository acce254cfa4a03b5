//! The least pair whose accesses name one cell and which two other pieces have the other way round.

ghost use Rattle.std.specs.Prelude.{◌≡◌, ◌≤◌, ◌+◌, length, drop, IfOk, OnOk};
ghost use Rattle.std.specs.List.{All};
ghost use Rattle.ch_meeting.specs.Asked.{AreInOrders, AreReversalOf, AreTurned, Asks};
ghost use Rattle.ch_meeting.specs.Asked.{AsksMeeting, IsReversalAmongOf, IsReversalByOf};
ghost use Rattle.ch_meeting.specs.Asked.{IsTurnedAmongOf, boxes_of, lesser, pair_size};
ghost use Rattle.ch_meeting.specs.Cases.{InOrder, IsWithin};
ghost use Rattle.ch_meeting.specs.Drafts.{IsDraft, Narrows};
ghost use Rattle.ch_meeting.specs.Meeting.{AreAccessesOf, AreAlike, AreComparable};
ghost use Rattle.ch_meeting.specs.Meeting.{ArePlain, IsLeastPair, IsPlain, IsReversalOf};

use crate::draft::Draft;
use crate::layout::{push_cells, push_pair};
use crate::meeting::{ask_meeting, meeting_draft, meets_in_order};
use crate::orders::{Order, orders, put_in_order};
use crate::placing::{place_pair, tie};
use crate::question::{FourPieces, TwoAccesses, are_alike, are_comparable};
use ch_affine::{List, Range};
use ch_space::Piece;
use std::alloc::{AllocError, Global};

fn reversal_ranges(
    alloc: Global,
    pieces: &FourPieces,
    accesses: &TwoAccesses,
) -> Result<List<Range>, AllocError>
    requires { ArePlain pieces.now }
    ensures { IfOk result (λ boxes. boxes ≡ boxes_of pieces.now accesses.now) }
{
    let mut boxes = List::new(alloc);
    push_pair(&mut boxes, pieces.first, pieces.second)?;
    push_pair(&mut boxes, pieces.new_second, pieces.new_first)?;
    let iters = pieces.first.origin.len();
    let others = pieces.second.origin.len();
    push_cells(&mut boxes, iters, others, accesses)?;
    Ok(boxes)
}

/// Asks for points at which the new elements have the iterators that stand from `iters` and from
/// `others` on. Their levels stand from `start` on, those of the second before those of the first.
fn ask_turned(
    alloc: Global,
    draft: &mut Draft,
    pieces: &FourPieces,
    start: usize,
    iters: usize,
    others: usize,
) -> Result<(), AllocError>
    requires draft { IsDraft draft.old }
    requires pieces { ArePlain pieces.now }
    requires after { start + pair_size pieces.now.new_second.now pieces.now.new_first.now ≤ iters }
    requires before { iters ≤ others }
    requires inside { iters + length pieces.now.new_first.now.origin ≤ length draft.old.boxes }
    requires inside_others { others + length pieces.now.new_second.now.origin
        ≤ length draft.old.boxes }
    ensures { OnOk result (Narrows draft.old draft.new (AreTurned pieces.now.new_first.now
        pieces.now.new_second.now start iters others)) }
{
    let behind = start + pieces.new_second.levels as usize;
    tie(alloc, draft, pieces.new_second, start, others)?;
    tie(alloc, draft, pieces.new_first, behind, iters)?;
    place_pair(alloc, draft, pieces.new_second, pieces.new_first, start)
}

fn variables_of(first: &Piece, second: &Piece) -> usize
    requires first { IsPlain first.now }
    requires second { IsPlain second.now }
    ensures { result ≡ pair_size first.now second.now }
{
    (first.levels + second.levels + first.hidden + second.hidden) as usize
}

fn ask_reversal(
    alloc: Global,
    draft: &mut Draft,
    pieces: &FourPieces,
    accesses: &TwoAccesses,
) -> Result<(), AllocError>
    requires draft { IsDraft draft.old }
    requires boxes { draft.old.boxes ≡ boxes_of pieces.now accesses.now }
    requires pieces { ArePlain pieces.now }
    requires accesses { AreAccessesOf pieces.now.first.now pieces.now.second.now accesses.now }
    requires alike { AreAlike accesses.now }
    requires comparable { AreComparable pieces.now }
    ensures { OnOk result (Narrows draft.old draft.new (AreReversalOf pieces.now accesses.now)) }
{
    let start = variables_of(pieces.first, pieces.second);
    let iters = start + variables_of(pieces.new_second, pieces.new_first);
    let others = iters + pieces.first.origin.len();
    ask_meeting(alloc, draft, pieces.first, pieces.second, accesses, iters)?;
    ask_turned(alloc, draft, pieces, start, iters, others)
}

/// What is asked of the elements in whatever order they are.
fn reversal_draft(
    alloc: Global,
    pieces: &FourPieces,
    accesses: &TwoAccesses,
) -> Result<Draft, AllocError>
    requires pieces { ArePlain pieces.now }
    requires accesses { AreAccessesOf pieces.now.first.now pieces.now.second.now accesses.now }
    requires alike { AreAlike accesses.now }
    requires comparable { AreComparable pieces.now }
    ensures { IfOk result (λ draft. Asks draft (boxes_of pieces.now accesses.now)
        (AreReversalOf pieces.now accesses.now)) }
{
    pieces.first.system.known();
    pieces.second.system.known();
    pieces.new_first.system.known();
    pieces.new_second.system.known();
    let boxes = reversal_ranges(alloc, pieces, accesses)?;
    let mut draft = Draft::new(alloc, boxes);
    ask_reversal(alloc, &mut draft, pieces, accesses)?;
    Ok(draft)
}

/// Asks for points at which the elements are in the one order and the new ones in the other.
fn put_in_orders(
    alloc: Global,
    draft: &mut Draft,
    pieces: &FourPieces,
    order: Order,
    turn: Order,
) -> Result<(), AllocError>
    requires draft { IsDraft draft.old }
    requires pieces { ArePlain pieces.now }
    requires room { pair_size pieces.now.first.now pieces.now.second.now
        + pair_size pieces.now.new_second.now pieces.now.new_first.now ≤ length draft.old.boxes }
    requires within { IsWithin pieces.now.first.now.levels pieces.now.second.now.levels order }
    requires turned_within { IsWithin pieces.now.new_second.now.levels
        pieces.now.new_first.now.levels turn }
    ensures { OnOk result (Narrows draft.old draft.new (AreInOrders order turn pieces.now)) }
{
    let start = variables_of(pieces.first, pieces.second);
    let behind = start + pieces.new_second.levels as usize;
    put_in_order(alloc, draft, order, 0, pieces.first.levels as usize)?;
    put_in_order(alloc, draft, turn, start, behind)
}

/// The least pair that meets in the one order and is turned in the other.
fn least_by(
    alloc: Global,
    pieces: &FourPieces,
    accesses: &TwoAccesses,
    draft: &mut Draft,
    order: Order,
    turn: Order,
) -> Result<Option<List<i64>>, AllocError>
    requires pieces { ArePlain pieces.now }
    requires accesses { AreAccessesOf pieces.now.first.now pieces.now.second.now accesses.now }
    requires alike { AreAlike accesses.now }
    requires comparable { AreComparable pieces.now }
    requires asks { Asks draft.old (boxes_of pieces.now accesses.now)
        (AreReversalOf pieces.now accesses.now) }
    requires within { IsWithin pieces.now.first.now.levels pieces.now.second.now.levels order }
    requires turned_within { IsWithin pieces.now.new_second.now.levels
        pieces.now.new_first.now.levels turn }
    ensures draft { OnOk result (draft.new ≡ draft.old) }
    ensures least { IfOk result (λ point. IsLeastPair pieces.now.first.now.levels
        (IsReversalByOf order turn pieces.now accesses.now) point) }
{
    let rows = draft.rows.len();
    put_in_orders(alloc, draft, pieces, order, turn)?;
    let least = draft.least(alloc)?;
    draft.keep_rows(rows);
    match least {
        None => Ok(None),
        Some(point) => {
            let count = (pieces.first.levels + pieces.second.levels) as usize;
            let pair = List::from_slice(alloc, &point.as_slice()[..count])?;
            Ok(Some(pair))
        }
    }
}

/// The lesser of two lists.
fn lesser(first: Option<List<i64>>, second: Option<List<i64>>) -> Option<List<i64>>
    ensures { result ≡ lesser first second }
{
    match (first, second) {
        (None, second) => second,
        (first, None) => first,
        (Some(first), Some(second)) => {
            if second.as_slice().cmp(first.as_slice()).is_lt() {
                Some(second)
            } else {
                Some(first)
            }
        }
    }
}

/// The least pair that meets in the order and is turned in one of the others.
fn least_turned(
    alloc: Global,
    pieces: &FourPieces,
    accesses: &TwoAccesses,
    draft: &mut Draft,
    order: Order,
    turns: &[Order],
) -> Result<Option<List<i64>>, AllocError>
    requires pieces { ArePlain pieces.now }
    requires accesses { AreAccessesOf pieces.now.first.now pieces.now.second.now accesses.now }
    requires alike { AreAlike accesses.now }
    requires comparable { AreComparable pieces.now }
    requires asks { Asks draft.old (boxes_of pieces.now accesses.now)
        (AreReversalOf pieces.now accesses.now) }
    requires within { IsWithin pieces.now.first.now.levels pieces.now.second.now.levels order }
    requires turned_within { All (IsWithin pieces.now.new_second.now.levels
        pieces.now.new_first.now.levels) turns.now }
    ensures draft { OnOk result (draft.new ≡ draft.old) }
    ensures least { IfOk result (λ point. IsLeastPair pieces.now.first.now.levels
        (IsTurnedAmongOf order turns.now pieces.now accesses.now) point) }
{
    let mut least = None;
    for turn in turns {
        let next = least_by(alloc, pieces, accesses, draft, order, *turn)?;
        least = lesser(least, next);
    }
    Ok(least)
}

/// The same, where it is not known yet that some pair meets in the order: that is asked with fewer
/// variables.
fn least_met(
    alloc: Global,
    pieces: &FourPieces,
    accesses: &TwoAccesses,
    meeting: &mut Draft,
    order: Order,
    turns: &[Order],
) -> Result<Option<List<i64>>, AllocError>
    requires pieces { ArePlain pieces.now }
    requires accesses { AreAccessesOf pieces.now.first.now pieces.now.second.now accesses.now }
    requires alike { AreAlike accesses.now }
    requires comparable { AreComparable pieces.now }
    requires asks { AsksMeeting pieces.now.first.now pieces.now.second.now accesses.now meeting.old }
    requires within { IsWithin pieces.now.first.now.levels pieces.now.second.now.levels order }
    requires turned_within { All (IsWithin pieces.now.new_second.now.levels
        pieces.now.new_first.now.levels) turns.now }
    ensures draft { OnOk result (meeting.new ≡ meeting.old) }
    ensures least { IfOk result (λ point. IsLeastPair pieces.now.first.now.levels
        (IsTurnedAmongOf order turns.now pieces.now accesses.now) point) }
{
    let first = pieces.first;
    let second = pieces.second;
    if !meets_in_order(alloc, first, second, accesses, meeting, order)? {
        return Ok(None);
    }
    let mut draft = reversal_draft(alloc, pieces, accesses)?;
    least_turned(alloc, pieces, accesses, &mut draft, order, turns)
}

/// The least pair that meets in one of the orders and is turned in one of the others.
fn least_ordered(
    alloc: Global,
    pieces: &FourPieces,
    accesses: &TwoAccesses,
    meeting: &mut Draft,
    orders: &[Order],
    turns: &[Order],
) -> Result<Option<List<i64>>, AllocError>
    requires pieces { ArePlain pieces.now }
    requires accesses { AreAccessesOf pieces.now.first.now pieces.now.second.now accesses.now }
    requires alike { AreAlike accesses.now }
    requires comparable { AreComparable pieces.now }
    requires asks { AsksMeeting pieces.now.first.now pieces.now.second.now accesses.now meeting.old }
    requires within { All (IsWithin pieces.now.first.now.levels
        pieces.now.second.now.levels) orders.now }
    requires turned_within { All (IsWithin pieces.now.new_second.now.levels
        pieces.now.new_first.now.levels) turns.now }
    ensures { IfOk result (λ point. IsLeastPair pieces.now.first.now.levels
        (IsReversalAmongOf orders.now turns.now pieces.now accesses.now) point) }
{
    // No order of the elements is asked about where one row, or two, already shut every point out.
    if meeting.is_excluded(alloc) {
        return Ok(None);
    }
    let mut least = None;
    for order in orders {
        let next = least_met(alloc, pieces, accesses, meeting, *order, turns)?;
        least = lesser(least, next);
    }
    Ok(least)
}

/// The least pair of an element of the first piece and a later one of the second whose accesses
/// name one cell and which the new pieces have the other way round: the level values of the first
/// element, followed by those of the second. None exactly where there is no such pair.
pub fn least_reversal(
    alloc: Global,
    pieces: &FourPieces,
    accesses: &TwoAccesses,
) -> Result<Option<List<i64>>, AllocError>
    requires pieces { ArePlain pieces.now }
    requires accesses { AreAccessesOf pieces.now.first.now pieces.now.second.now accesses.now }
    ensures { IfOk result (λ point. IsLeastPair pieces.now.first.now.levels
        (IsReversalOf pieces.now accesses.now) point) }
{
    if !are_alike(accesses) {
        return Ok(None);
    }
    if !are_comparable(pieces) {
        return Ok(None);
    }
    let first = pieces.first.places.as_slice();
    let second = pieces.second.places.as_slice();
    let new_first = pieces.new_first.places.as_slice();
    let new_second = pieces.new_second.places.as_slice();
    let ways = orders(alloc, first, second)?;
    if ways.is_empty() {
        return Ok(None);
    }
    let turns = orders(alloc, new_second, new_first)?;
    if turns.is_empty() {
        return Ok(None);
    }
    let mut meeting = meeting_draft(alloc, pieces.first, pieces.second, accesses)?;
    least_ordered(
        alloc,
        pieces,
        accesses,
        &mut meeting,
        ways.as_slice(),
        turns.as_slice(),
    )
}
