//! Pieces with other loop values.

ghost use Rattle.std.specs.Prelude.{◌≡◌, ℕ, ◌+◌, ◌<◌, ◌≤◌, ◌^◌, [], length, IfOk, IsTrue};
ghost use Rattle.ch_moved.specs.Room.{HasRoom};
ghost use Rattle.std.specs.List.{All};
ghost use Rattle.ch_affine.specs.Affine.{form, IsAtMost};
ghost use Rattle.ch_moved.specs.Reindexed.{IsReindexed};
ghost use Rattle.ch_permute.specs.Changed.{FitPiece, IsChanged};
ghost use Rattle.ch_permute.specs.Lowered.{plus};
ghost use Rattle.ch_permute.specs.Permuted.{is_permutation, picked};
ghost use Rattle.ch_permute.specs.Raised.{growth};
ghost use Rattle.ch_permute.specs.Turned.{source, target, Turns};
ghost use Rattle.ch_space.specs.Keeps.{IsWhole};

use crate::forms::{minus_forms, turned_forms};
use crate::ranges::{greater_boxes, turned_boxes};
use ch_affine::{Aff, List, Range};
use ch_moved::reindexed;
use ch_space::Piece;
use std::alloc::{AllocError, Global};

/// The piece over new levels within these ranges, from which the forms give the old ones.
fn with_levels(
    alloc: Global,
    piece: &Piece,
    forms: &[Aff],
    boxes: List<Range>,
) -> Result<Piece, AllocError>
    requires whole { IsWhole piece.now }
    requires fit { FitPiece piece.now forms.now boxes }
    ensures { IfOk result (λ new. IsReindexed piece.now forms.now boxes [] piece.now.places new) }
{
    let places = List::from_slice(alloc, piece.places.as_slice())?;
    reindexed(alloc, piece, forms, boxes, &[], places)
}

/// The piece with its loops in that order.
pub(crate) fn turned_piece(alloc: Global, piece: &Piece, order: &[i64]) -> Result<Piece, AllocError>
    requires whole { IsWhole piece.now }
    requires room { HasRoom 1 piece.now }
    requires permutation { IsTrue (is_permutation order.now) }
    requires turns { Turns piece.now.levels (source order.now) (target order.now) }
    ensures { IfOk result (λ new. IsChanged (picked order.now) 1 piece.now new) }
{
    let levels = piece.levels as usize;
    let forms = turned_forms(alloc, order, levels)?;
    let boxes = turned_boxes(alloc, &piece.system.boxes.as_slice()[..levels], order)?;
    with_levels(alloc, piece, forms.as_slice(), boxes)
}

/// The piece with the loop value of `level`, counted from 0, greater by `amount` and by the values
/// before it times their amounts.
pub(crate) fn raised_piece(
    alloc: Global,
    piece: &Piece,
    level: usize,
    amounts: &[i64],
    amount: i64,
) -> Result<Piece, AllocError>
    requires whole { IsWhole piece.now }
    requires room { HasRoom (growth amounts.now) piece.now }
    requires level { level < piece.now.levels }
    requires before { length amounts.now ≤ level }
    requires small { All (IsAtMost 64) amounts.now }
    requires near { IsAtMost (2 ^ 20) amount }
    ensures { IfOk result (λ new.
        IsChanged (plus (form amounts.now amount) level) (growth amounts.now) piece.now new) }
{
    let levels = piece.levels as usize;
    let forms = minus_forms(alloc, amounts, amount, level, levels)?;
    let old = &piece.system.boxes.as_slice()[..levels];
    let boxes = greater_boxes(alloc, old, level, amounts, amount)?;
    with_levels(alloc, piece, forms.as_slice(), boxes)
}
