//! The pieces of a space after a command: some changed, the others the same.

ghost use Rattle.std.specs.Prelude.{◌≡◌, ◌-◌, ◌<◌, ◌^◌, ◌≤ℤ◌, ◌<ℤ◌, None};
ghost use Rattle.std.specs.Prelude.{true, pos, length, map, IfOk, IsTrue};
ghost use Rattle.ch_moved.specs.Room.{HasRoom};
ghost use Rattle.std.specs.List.{All};
ghost use Rattle.ch_affine.specs.Affine.{form, IsAtMost};
ghost use Rattle.ch_moved.specs.Arguments.{is_named, natural};
ghost use Rattle.ch_moved.specs.Causes.{no_level, no_piece};
ghost use Rattle.ch_permute.specs.Changed.{in_first, AllBecome, Becomes};
ghost use Rattle.ch_permute.specs.Lowered.{plus};
ghost use Rattle.ch_permute.specs.Permuted.{in_moving, is_permutation};
ghost use Rattle.ch_permute.specs.Permuted.{moving, picked, unshared_moving};
ghost use Rattle.ch_permute.specs.Raised.{growth};
ghost use Rattle.ch_permute.specs.Turned.{source, target, Turns};
ghost use Rattle.ch_space.specs.Keeps.{AreApart, IsWhole};
ghost use Rattle.ch_space.specs.Pieces.{listed};

use crate::ordering::first_moving;
use crate::pieces::{raised_piece, turned_piece};
use ch_affine::List;
use ch_moved::causes::contains;
use ch_space::copies::copied_piece;
use ch_space::{Piece, share};
use std::alloc::{AllocError, Global};

/// Whether these places are in the group of our piece at the first level that moves, if any does.
fn moves(first: Option<usize>, ours: &[u32], theirs: &[u32]) -> bool
    ensures { result ≡ in_first first (map pos ours.now) (map pos theirs.now) }
{
    match first {
        Some(level) => share(level, ours, theirs),
        None => false,
    }
}

/// The piece, with its loops in that order where it moves.
fn permuted_piece(
    alloc: Global,
    piece: &Piece,
    is_moving: bool,
    order: &[i64],
) -> Result<Piece, AllocError>
    requires whole { IsWhole piece.now }
    requires room { HasRoom 1 piece.now }
    requires permutation { IsTrue (is_permutation order.now) }
    requires turns { is_moving ≡ true
        → Turns piece.now.levels (source order.now) (target order.now) }
    ensures { IfOk result (Becomes is_moving (picked order.now) 1 piece.now) }
{
    if is_moving {
        turned_piece(alloc, piece, order)
    } else {
        copied_piece(alloc, piece)
    }
}

/// The pieces, those of the group of one of them with their loops in that order.
pub(crate) fn permuted_pieces(
    alloc: Global,
    pieces: &[Piece],
    number: usize,
    order: &[i64],
) -> Result<List<Piece>, AllocError>
    requires apart { AreApart pieces.now }
    requires number { number < length pieces.now }
    requires room { All (HasRoom 1) pieces.now }
    requires permutation { IsTrue (is_permutation order.now) }
    requires shared { unshared_moving (listed pieces.now) (pos number) (moving 1 order.now) ≡ None }
    ensures { IfOk result (AllBecome (in_moving (listed pieces.now) (pos number) (moving 1 order.now))
        (picked order.now) 1 pieces.now) }
{
    let first = first_moving(order);
    let ours = pieces[number].places.as_slice();
    let mut new = List::with_capacity(alloc, pieces.len())?;
    for piece in pieces {
        let is_moving = moves(first, ours, piece.places.as_slice());
        new.push(permuted_piece(alloc, piece, is_moving, order)?)?;
    }
    Ok(new)
}

/// The piece, with the value of the level greater where it is named.
fn raised_if(
    alloc: Global,
    piece: &Piece,
    is_named: bool,
    level: i64,
    amounts: &[i64],
    amount: i64,
) -> Result<Piece, AllocError>
    requires whole { IsWhole piece.now }
    requires room { HasRoom (growth amounts.now) piece.now }
    requires some { is_named ≡ true → pos (length amounts.now) <ℤ level }
    requires deep { is_named ≡ true → level ≤ℤ pos piece.now.levels }
    requires small { All (IsAtMost 64) amounts.now }
    requires near { IsAtMost (2 ^ 20) amount }
    ensures { IfOk result (Becomes is_named
        (plus (form amounts.now amount) (natural level - 1)) (growth amounts.now) piece.now) }
{
    if is_named {
        raised_piece(alloc, piece, level as usize - 1, amounts, amount)
    } else {
        copied_piece(alloc, piece)
    }
}

/// The pieces, the named ones with the value of the level greater by `amount` and by the values
/// before it times their amounts.
pub(crate) fn raised_pieces(
    alloc: Global,
    pieces: &[Piece],
    numbers: &[i64],
    level: i64,
    amounts: &[i64],
    amount: i64,
) -> Result<List<Piece>, AllocError>
    requires apart { AreApart pieces.now }
    requires named { no_piece (listed pieces.now) numbers.now ≡ None }
    requires deep { no_level (listed pieces.now) numbers.now level ≡ None }
    requires before { pos 1 ≤ℤ level → pos (length amounts.now) <ℤ level }
    requires room { All (HasRoom (growth amounts.now)) pieces.now }
    requires small { All (IsAtMost 64) amounts.now }
    requires near { IsAtMost (2 ^ 20) amount }
    ensures { IfOk result (AllBecome (is_named (listed pieces.now) numbers.now)
        (plus (form amounts.now amount) (natural level - 1)) (growth amounts.now) pieces.now) }
{
    let mut new = List::with_capacity(alloc, pieces.len())?;
    for k in 0..pieces.len() {
        let is_named = contains(numbers, k as i64);
        new.push(raised_if(alloc, &pieces[k], is_named, level, amounts, amount)?)?;
    }
    Ok(new)
}
