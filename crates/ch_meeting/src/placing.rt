//! Pieces among the variables of a draft: their rows, and the iterators that their levels make.

ghost use Rattle.std.specs.Prelude.{◌≡◌, ◌≤◌, ◌<◌, ◌+◌, ◌-◌, ◌+ℤ◌, ◌-ℤ◌, ◌++◌};
ghost use Rattle.std.specs.Prelude.{ℤ, List, length, take, drop, IfOk, OnOk};
ghost use Rattle.ch_affine.specs.Affine.{dot, value};
ghost use Rattle.ch_meeting.specs.Drafts.{IsDraft, Narrows};
ghost use Rattle.ch_meeting.specs.Placed.{HoldsAt, PairAt, PairTiedAt};
ghost use Rattle.ch_meeting.specs.Placed.{TiedAt, pair_boxes, wide, wides};
ghost use Rattle.ch_poly.specs.Boxes.{at};
ghost use Rattle.ch_space.specs.Keeps.{IsWhole};

use crate::draft::{Draft, add, add_one, no_coefs, row};
use ch_affine::{Aff, List, Range};
use ch_space::Piece;
use std::alloc::{AllocError, Global};

/// The row with its first `count` coefficients from `levels` on and the others from `hidden` on.
fn placed_row(
    alloc: Global,
    variables: usize,
    form: &Aff,
    count: usize,
    levels: usize,
    hidden: usize,
) -> Result<Aff, AllocError>
    requires some { count ≤ length form.now.coefs }
    requires after { levels + count ≤ hidden }
    requires inside { hidden + (length form.now.coefs - count) ≤ variables }
    requires few { variables ≤ 4096 }
    ensures long { IfOk result (λ placed. length placed.coefs ≡ variables) }
    ensures value { IfOk result (λ placed. (z : List ℤ) → value placed z
        ≡ form.now.constant +ℤ (dot (take count form.now.coefs) (drop levels z) +ℤ dot (drop count form.now.coefs) (drop hidden z))) }
{
    let (front, back) = form.coefs.as_slice().split_at(count);
    let mut coefs = no_coefs(alloc, variables)?;
    add(&mut coefs, levels, front)?;
    add(&mut coefs, hidden, back)?;
    row(coefs, variables, form.constant)
}

/// The rows of a piece's system over its levels, from `levels` on, and its hidden variables, from
/// `hidden` on.
fn place(
    alloc: Global,
    draft: &mut Draft,
    piece: &Piece,
    levels: usize,
    hidden: usize,
) -> Result<(), AllocError>
    requires draft { IsDraft draft.old }
    requires whole { IsWhole piece.now }
    requires after { levels + piece.now.levels ≤ hidden }
    requires inside { hidden + piece.now.hidden ≤ length draft.old.boxes }
    ensures { OnOk result (Narrows draft.old draft.new (HoldsAt piece.now levels hidden)) }
{
    piece.system.known();
    let rows = piece.system.rows.as_slice();
    let count = piece.levels as usize;
    for form in rows {
        let placed = placed_row(alloc, draft.boxes.len(), form, count, levels, hidden)?;
        draft.at_least_zero(placed)?;
    }
    Ok(())
}

/// The row that is 0 where a variable is the value of a form of others.
fn tie_row(
    alloc: Global,
    variables: usize,
    form: &Aff,
    levels: usize,
    iter: usize,
) -> Result<Aff, AllocError>
    requires after { levels + length form.now.coefs ≤ iter }
    requires inside { iter < variables }
    requires few { variables ≤ 4096 }
    ensures long { IfOk result (λ tie. length tie.coefs ≡ variables) }
    ensures value { IfOk result (λ tie. (z : List ℤ) → value tie z
        ≡ value form.now (drop levels z) -ℤ at z iter) }
{
    let mut coefs = no_coefs(alloc, variables)?;
    add(&mut coefs, levels, form.coefs.as_slice())?;
    add_one(&mut coefs, iter, -1)?;
    row(coefs, variables, form.constant)
}

/// Ties the variables from `iters` on to the piece's iterators at the levels from `levels` on.
pub(crate) fn tie(
    alloc: Global,
    draft: &mut Draft,
    piece: &Piece,
    levels: usize,
    iters: usize,
) -> Result<(), AllocError>
    requires draft { IsDraft draft.old }
    requires whole { IsWhole piece.now }
    requires after { levels + piece.now.levels ≤ iters }
    requires inside { iters + length piece.now.origin ≤ length draft.old.boxes }
    ensures { OnOk result (Narrows draft.old draft.new (TiedAt piece.now levels iters)) }
{
    let origin = piece.origin.as_slice();
    for k in 0..origin.len() {
        let row = tie_row(alloc, draft.boxes.len(), &origin[k], levels, iters + k)?;
        draft.zero(alloc, row)?;
    }
    Ok(())
}

/// The rows of two pieces whose levels stand from `start` on, and behind them the hidden variables
/// of both.
pub(crate) fn place_pair(
    alloc: Global,
    draft: &mut Draft,
    first: &Piece,
    second: &Piece,
    start: usize,
) -> Result<(), AllocError>
    requires draft { IsDraft draft.old }
    requires first { IsWhole first.now }
    requires second { IsWhole second.now }
    requires inside { start + first.now.levels + second.now.levels + first.now.hidden
        + second.now.hidden ≤ length draft.old.boxes }
    ensures { OnOk result (Narrows draft.old draft.new (PairAt first.now second.now start)) }
{
    let others = start + first.levels as usize;
    let hidden = others + second.levels as usize;
    let behind = hidden + first.hidden as usize;
    place(alloc, draft, first, start, hidden)?;
    place(alloc, draft, second, others, behind)
}

/// The iterators of both, of the first from `iters` on and those of the second behind them.
pub(crate) fn tie_pair(
    alloc: Global,
    draft: &mut Draft,
    first: &Piece,
    second: &Piece,
    start: usize,
    iters: usize,
) -> Result<(), AllocError>
    requires draft { IsDraft draft.old }
    requires first { IsWhole first.now }
    requires second { IsWhole second.now }
    requires after { start + first.now.levels + second.now.levels ≤ iters }
    requires inside { iters + length first.now.origin + length second.now.origin
        ≤ length draft.old.boxes }
    ensures { OnOk result (Narrows draft.old draft.new
        (PairTiedAt first.now second.now start iters)) }
{
    tie(alloc, draft, first, start, iters)?;
    let others = start + first.levels as usize;
    tie(alloc, draft, second, others, iters + first.origin.len())
}
