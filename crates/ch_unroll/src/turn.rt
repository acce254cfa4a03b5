//! The turns of a loop that leave one remainder, as a piece.

ghost use Rattle.std.specs.Prelude.{◌≡◌, ◌+◌, ◌<◌, ◌≤◌, ◌^◌, []};
ghost use Rattle.std.specs.Prelude.{length, slice_index_or, take, IfOk};
ghost use Rattle.ch_moved.specs.Room.{HasRoom};
ghost use Rattle.ch_moved.specs.Reindexed.{IsReindexed};
ghost use Rattle.ch_space.specs.Built.{unit};
ghost use Rattle.ch_space.specs.Keeps.{IsWhole};
ghost use Rattle.ch_unroll.specs.Turns.{multiple, offset_places};
ghost use Rattle.ch_unroll.specs.Turns.{quotients, turn_boxes, turn_forms};

use ch_affine::{Aff, List, Range};
use ch_moved::reindexed;
use ch_moved::units::{push_zeros, unit};
use ch_pieces::wide_places;
use ch_space::Piece;
use std::alloc::{AllocError, Global};

/// The quotients of the numbers of a range.
fn quotients(range: Range, amount: u32) -> Range
    requires { 1 ≤ amount }
    ensures { result ≡ quotients amount range }
{
    let amount = i64::from(amount);
    Range {
        low: range.low.div_euclid(amount),
        high: range.high.div_euclid(amount),
    }
}

/// The ranges, that of `level`, from 0, being that of the quotients.
fn turn_boxes(
    alloc: Global,
    boxes: &[Range],
    level: usize,
    amount: u32,
) -> Result<List<Range>, AllocError>
    requires level { level < length boxes.now }
    requires amount { 1 ≤ amount }
    ensures { IfOk result (λ new. new ≡ turn_boxes level amount boxes.now) }
{
    let mut new = List::from_slice(alloc, boxes)?;
    new.as_mut_slice()[level] = quotients(boxes[level], amount);
    Ok(new)
}

/// The form of so many times the one variable that has so many before it and behind it, and a
/// remainder.
fn multiple(
    alloc: Global,
    before: usize,
    after: usize,
    amount: u32,
    remainder: u32,
) -> Result<Aff, AllocError>
    requires { before + after < 4096 }
    ensures { IfOk result (λ form. form ≡ multiple before after amount remainder) }
{
    let mut coefs = List::new(alloc);
    push_zeros(&mut coefs, before)?;
    coefs.push(i64::from(amount))?;
    push_zeros(&mut coefs, after)?;
    Ok(Aff {
        coefs,
        constant: i64::from(remainder),
    })
}

/// The form that gives the old value of level `k`, from 0, of so many.
fn turn_form(
    alloc: Global,
    levels: usize,
    level: usize,
    amount: u32,
    remainder: u32,
    k: usize,
) -> Result<Aff, AllocError>
    requires few { levels ≤ 10 }
    requires level { level < levels }
    requires k { k < levels }
    ensures { IfOk result (λ form.
        form ≡ slice_index_or (turn_forms levels level amount remainder) k (unit 0 0)) }
{
    if k == level {
        multiple(alloc, k, levels - 1 - k, amount, remainder)
    } else {
        unit(alloc, k, levels - 1 - k)
    }
}

/// The forms that give the old level values from the new ones, that of `level` being a quotient.
fn turn_forms(
    alloc: Global,
    levels: usize,
    level: usize,
    amount: u32,
    remainder: u32,
) -> Result<List<Aff>, AllocError>
    requires few { levels ≤ 10 }
    requires level { level < levels }
    ensures { IfOk result (λ forms. forms ≡ turn_forms levels level amount remainder) }
{
    let mut forms = List::with_capacity(alloc, levels)?;
    for k in 0..levels {
        forms.push(turn_form(alloc, levels, level, amount, remainder, k)?)?;
    }
    Ok(forms)
}

/// The piece over the quotients of the values of `level`, from 0, that leave the remainder.
pub(crate) fn turn_piece(
    alloc: Global,
    piece: &Piece,
    level: usize,
    amount: u32,
    remainder: u32,
) -> Result<Piece, AllocError>
    requires whole { IsWhole piece.now }
    requires level { level < piece.now.levels }
    requires room { HasRoom amount piece.now }
    requires few { amount ≤ 32 }
    requires remainder { remainder < amount }
    ensures { IfOk result (λ new. IsReindexed piece.now
        (turn_forms piece.now.levels level amount remainder)
        (turn_boxes level amount (take piece.now.levels piece.now.system.boxes)) [] piece.now.places new) }
{
    let levels = piece.levels as usize;
    let forms = turn_forms(alloc, levels, level, amount, remainder)?;
    let boxes = turn_boxes(
        alloc,
        &piece.system.boxes.as_slice()[..levels],
        level,
        amount,
    )?;
    let places = List::from_slice(alloc, piece.places.as_slice())?;
    reindexed(alloc, piece, forms.as_slice(), boxes, &[], places)
}

/// The places, the one at `behind` being greater by the offset.
pub(crate) fn offset_places(
    alloc: Global,
    places: &[u32],
    behind: usize,
    offset: u64,
) -> Result<List<u64>, AllocError>
    requires behind { behind < length places.now }
    requires offset { offset ≤ 2 ^ 40 }
    ensures { IfOk result (λ wide. wide ≡ offset_places behind offset places.now) }
{
    let mut wide = wide_places(alloc, places)?;
    wide.as_mut_slice()[behind] = offset + u64::from(places[behind]);
    Ok(wide)
}
