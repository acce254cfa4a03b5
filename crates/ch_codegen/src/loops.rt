//! Loops that the rows of pieces bound.

ghost use Rattle.std.specs.Prelude.{◌≡◌, ◌≤◌, ◌<◌, length, IfOk, IfSome};
ghost use Rattle.std.specs.List.{All};
ghost use Rattle.ch_affine.specs.Rows.{IsSystem};
ghost use Rattle.ch_timed.specs.Members.{Each};
ghost use Rattle.ch_codegen.specs.Bounds.{AreBounds, AreRanges, AreSound, Binds, HasSmallEnd, IsPlain, IsRangeOf};
ghost use Rattle.ch_codegen.specs.Parts.{AreSystems};

use crate::bounds::{Ends, ends_by};
use crate::elimination::rows_to;
use crate::fixed::fixed_range;
use crate::same::same_ends;
use ch_affine::{Aff, List, Range, System};
use ch_space::Piece;
use std::alloc::{AllocError, Global};

/// The bounds that a piece's own rows give the loop inside `depth` others.
fn own_ends(alloc: Global, piece: &Piece, depth: usize) -> Result<Ends, AllocError>
    requires system { IsSystem piece.now.system }
    requires plain { IsPlain piece.now }
    requires deep { depth < length piece.now.system.boxes }
    ensures { IfOk result (λ e.
        AreBounds depth piece.now.system.rows piece.now.system.boxes e.lows e.highs) }
{
    let boxes = piece.system.boxes.as_slice();
    ends_by(alloc, piece.system.rows.as_slice(), boxes, depth)
}

/// The bounds that rows give the loop inside `depth` others, in the box of a system.
fn ends_in(alloc: Global, system: &System, rows: &[Aff], depth: usize) -> Result<Ends, AllocError>
    requires system { IsSystem system.now }
    requires sound { AreSound system.now rows.now }
    requires small { Each HasSmallEnd rows.now }
    requires deep { depth < length system.now.boxes }
    ensures { IfOk result (λ e. AreBounds depth rows.now system.now.boxes e.lows e.highs) }
{
    ends_by(alloc, rows, system.boxes.as_slice(), depth)
}

/// The bounds that a piece's rows give the loop inside `depth` others, its own and those that
/// follow from them.
fn further_ends(alloc: Global, piece: &Piece, depth: usize) -> Result<Ends, AllocError>
    requires system { IsSystem piece.now.system }
    requires plain { IsPlain piece.now }
    requires deep { depth < length piece.now.system.boxes }
    ensures { IfOk result (λ e. Binds depth e.lows e.highs piece.now) }
{
    let rows = rows_to(alloc, piece, depth)?;
    ends_in(alloc, &piece.system, rows.as_slice(), depth)
}

/// The bounds of the loop inside `depth` others, where they are those of each piece. One piece
/// alone has all that follow from its rows.
pub(crate) fn shared_ends(
    alloc: Global,
    run: &[Piece],
    depth: usize,
) -> Result<Option<Ends>, AllocError>
    requires some { 0 < length run.now }
    requires systems { AreSystems run.now }
    requires plain { All IsPlain run.now }
    requires deep { Each (λ p. depth < length p.system.boxes) run.now }
    ensures { IfOk result (λ o. IfSome o (λ e. Each (Binds depth e.lows e.highs) run.now)) }
{
    if run.len() == 1 {
        let found = further_ends(alloc, &run[0], depth)?;
        return Ok(Some(found));
    }
    let ends = own_ends(alloc, &run[0], depth)?;
    for piece in run {
        let other = own_ends(alloc, piece, depth)?;
        if !same_ends(&ends, &other) {
            return Ok(None);
        }
    }
    Ok(Some(ends))
}

/// The numbers between which a piece's own rows have the loop inside `depth` others, where they are
/// numbers.
fn own_range(alloc: Global, piece: &Piece, depth: usize) -> Result<Option<Range>, AllocError>
    requires system { IsSystem piece.now.system }
    requires plain { IsPlain piece.now }
    requires deep { depth < length piece.now.system.boxes }
    ensures { IfOk result (λ o. IfSome o (λ r. IsRangeOf depth r piece.now)) }
{
    let ends = own_ends(alloc, piece, depth)?;
    match fixed_range(&ends) {
        Some(range) if range.low <= range.high => Ok(Some(range)),
        _ => Ok(None),
    }
}

/// These ranges of each piece.
pub(crate) fn fixed_ranges(
    alloc: Global,
    run: &[Piece],
    depth: usize,
) -> Result<Option<List<Range>>, AllocError>
    requires systems { AreSystems run.now }
    requires plain { All IsPlain run.now }
    requires deep { Each (λ p. depth < length p.system.boxes) run.now }
    ensures { IfOk result (λ o. IfSome o (λ rs. AreRanges depth run.now rs)) }
{
    let mut ranges = List::new(alloc);
    for piece in run {
        match own_range(alloc, piece, depth)? {
            Some(range) => ranges.push(range)?,
            None => return Ok(None),
        }
    }
    Ok(Some(ranges))
}
