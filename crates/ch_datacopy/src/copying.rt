//! The command that copies.

ghost use Rattle.std.specs.Prelude.{◌≡◌, ◌≢◌, ◌+◌, ◌++◌, ◌∷◌, [], ◌<◌, ◌≤◌, ◌^◌, ℕ, List, None, length, map, IfOk, IfSome};
ghost use Rattle.std.specs.List.{All};
ghost use Rattle.ch_copied.specs.Copied.{copied, buffer_extents, datacopied};
ghost use Rattle.ch_copied.specs.Copyable.{HasLoop};
ghost use Rattle.ch_datacopy.specs.Causes.{before_copy, copy_cause, first_cause, of_plan};
ghost use Rattle.ch_datacopy.specs.Moved.{dimensions, plan_in};
ghost use Rattle.ch_datacopy.specs.Widths.{AreWidths, IsRoomy};
ghost use Rattle.ch_moved.specs.Arguments.{natural};
ghost use Rattle.ch_moved.specs.Causes.{Answers, first_of};
ghost use Rattle.ch_order.specs.Agreement.{KeepsArrays};
ghost use Rattle.ch_timed.specs.Do.{Store, done};
ghost use Rattle.ch_timed.specs.declared.element.Cell.{Cell};

use crate::candidates::{Work, all_kept, push_moves};
use crate::cells::Cells;
use crate::labels::free_label;
use crate::limits::{not_there, too_long, too_many, too_wide};
use crate::moves::{Moves, all_moves};
use crate::redirect::Target;
use crate::widths::extents;
use ch_affine::List;
use ch_moved::causes::{index, no_level, no_piece};
use ch_nest::Shape;
use ch_pieces::{Assembled, assembled};
use ch_space::copies::copied_lists;
use ch_space::{Piece, ShapeError, Space};
use std::alloc::{AllocError, Global};

/// The extents of the buffer for these moves, whose loop stands in so many others. C10: there are
/// none. C7, C8: there are too many, or they are too deep. C9: the buffer has too many cells.
fn buffer_extents(
    alloc: Global,
    pieces: &[Piece],
    around: usize,
    moves: &[Cells],
) -> Result<List<u32>, ShapeError>
    requires roomy { All (IsRoomy around (dimensions around moves.now)) moves.now }
    requires few { dimensions around moves.now ≤ 4 }
    ensures cause { (extents : List ℕ)
        → AreWidths around (dimensions around moves.now) moves.now extents
        → Answers result (first_of (before_copy pieces.now moves.now extents)) }
    ensures widths { IfOk result (AreWidths around (dimensions around moves.now) moves.now) }
{
    if moves.is_empty() {
        return Err(ShapeError::Shape(not_there()));
    }
    let first = &moves[0];
    if let Some(shape) = too_many(pieces, moves.len(), first.levels) {
        return Err(ShapeError::Shape(shape));
    }
    let dimensions = first.levels as usize - around;
    let extents = extents(alloc, around, dimensions, moves)?;
    if let Some(shape) = too_wide(extents.as_slice()) {
        return Err(ShapeError::Shape(shape));
    }
    Ok(extents)
}

/// The extents of the buffers, with one more buffer.
fn with_buffer(
    alloc: Global,
    temps: &[List<u32>],
    extents: List<u32>,
) -> Result<List<List<u32>>, AllocError>
    ensures { IfOk result (λ new. new ≡ temps.now ++ extents ∷ []) }
{
    let mut new = copied_lists(alloc, temps)?;
    new.push(extents)?;
    Ok(new)
}

/// The space with a buffer for the cells of the array that the loop of the piece uses, around which
/// stand so many others.
fn copied(
    alloc: Global,
    space: &Space,
    piece: usize,
    around: usize,
    array: u32,
) -> Result<Space, ShapeError>
    requires commands { space.now.commands < 32 }
    requires buffers { length space.now.temps < 2 ^ 31 }
    requires declared { array < space.now.arrays }
    requires inside { HasLoop space.now.list piece (around + 1) }
    ensures cause { Answers result
        (first_of (of_plan (plan_in space.now piece around array) space.now.list)) }
    ensures list { IfOk result (λ new.
        new.list ≡ copied (plan_in space.now piece around array) space.now.list) }
    ensures arrays { IfOk result (λ new. new.arrays ≡ space.now.arrays) }
    ensures temps { IfOk result (λ new.
        new.temps ≡ space.now.temps ++ (plan_in space.now piece around array).extents ∷ []) }
    ensures weight { IfOk result (λ new. new.weight ≡ space.now.weight) }
    ensures commands { IfOk result (λ new. new.commands ≡ space.now.commands + 1) }
    ensures same { IfOk result (λ new. (store : Store) (c : Cell)
        → c.array ≢ space.now.arrays + length space.now.temps
        → done new.list store c ≡ done space.now.list store c) }
    ensures keeps { IfOk result (λ new. (arrays : List (List ℕ)) → length arrays ≡ space.now.arrays
        → KeepsArrays arrays space.now.list space.now.temps new.list new.temps) }
{
    let old = space.pieces.as_slice();
    let ours = old[piece].places.as_slice();
    let moves = all_moves(alloc, old, ours, around, array)?;
    let Moves { ins, all } = moves;
    let extents = buffer_extents(alloc, old, around, all.as_slice())?;
    let work = Work {
        around,
        target: Target {
            array,
            buffer: space.arrays + space.temps.len() as u32,
        },
        ins: ins as u32,
        outs: (all.len() - ins) as u32,
        label: free_label(old),
    };
    let sizes = extents.as_slice();
    let mut candidates = all_kept(alloc, work, ours, sizes, old, space.counts.as_slice())?;
    push_moves(alloc, &mut candidates, work, ours, sizes, all)?;
    let assembled = assembled(alloc, candidates)?;
    let Assembled { pieces, counts } = assembled;
    if let Some(shape) = too_long(counts.as_slice()) {
        return Err(ShapeError::Shape(shape));
    }
    let temps = with_buffer(alloc, space.temps.as_slice(), extents)?;
    Ok(Space {
        arrays: space.arrays,
        pieces,
        counts,
        temps,
        weight: space.weight,
        commands: space.commands + 1,
    })
}

/// The level as a number of levels, 0 for a negative one.
fn natural(level: i64) -> usize
    ensures { result ≡ natural level }
{
    if level < 0 { 0 } else { level as usize }
}

/// Why what the numbers name forbids a copy.
fn first_cause(space: &Space, piece: i64, level: i64) -> Option<Shape>
    ensures { result ≡ first_cause space.now.list piece level }
{
    if let Some(shape) = no_piece(space, &[piece]) {
        return Some(shape);
    }
    no_level(space, &[piece], level)
}

/// The space in which the loop of the piece at the level works on a buffer of its own in place of
/// the array: the cells that it reads are moved into the buffer before each run of the loop, and
/// those that it writes are moved back behind it. The buffer is as wide as cells are apart that one
/// run uses. None stands for an array that isn't declared. The program means the same, but for the
/// cells of the buffer.
///
/// C1: the number isn't a piece's. C2: the piece doesn't have the level. C10: the array isn't
/// declared, or the loop has no access of it. C7: there are more than 256 pieces. C8: a piece is
/// deeper than 10 levels. C9: the buffer has more than 65,536 cells. C11: there are more than
/// 2,097,152 elements.
pub fn datacopy(
    alloc: Global,
    space: &Space,
    piece: i64,
    level: i64,
    array: Option<u32>,
) -> Result<Space, ShapeError>
    requires few { space.now.commands < 32 }
    requires buffers { length space.now.temps < 2 ^ 31 }
    ensures cause { Answers result (copy_cause space.now.list space.now.arrays
        (length space.now.temps) piece level array) }
    ensures list { IfOk result (λ new. IfSome array (λ k. new.list
        ≡ datacopied space.now.list (natural piece) (natural level) k
        (space.now.arrays + length space.now.temps))) }
    ensures temps { IfOk result (λ new. IfSome array (λ k. new.temps ≡ space.now.temps
        ++ buffer_extents space.now.list (natural piece) (natural level) k
        (space.now.arrays + length space.now.temps) ∷ [])) }
    ensures arrays { IfOk result (λ new. new.arrays ≡ space.now.arrays) }
    ensures weight { IfOk result (λ new. new.weight ≡ space.now.weight) }
    ensures commands { IfOk result (λ new. new.commands ≡ space.now.commands + 1) }
    ensures same { IfOk result (λ new. (store : Store) (c : Cell)
        → c.array ≢ space.now.arrays + length space.now.temps
        → done new.list store c ≡ done space.now.list store c) }
    ensures keeps { IfOk result (λ new. (arrays : List (List ℕ)) → length arrays ≡ space.now.arrays
        → KeepsArrays arrays space.now.list space.now.temps new.list new.temps) }
{
    if let Some(shape) = first_cause(space, piece, level) {
        return Err(ShapeError::Shape(shape));
    }
    let Some(array) = array else {
        return Err(ShapeError::Shape(not_there()));
    };
    if array >= space.arrays {
        return Err(ShapeError::Shape(not_there()));
    }
    let around = natural(level) - 1;
    copied(alloc, space, index(space, piece) as usize, around, array)
}
