//! Tiling a space.

ghost use Rattle.std.specs.Prelude.{◌≡◌, ◌+◌, ◌-◌, ◌<◌, ◌≤◌, None, pos, length, IfOk};
ghost use Rattle.ch_moved.specs.Room.{HasRoom};
ghost use Rattle.std.specs.List.{All};
ghost use Rattle.ch_moved.specs.Causes.{unshared, Answers};
ghost use Rattle.ch_order.specs.Legal.{AreAmong};
ghost use Rattle.ch_space.specs.Keeps.{AreApart};
ghost use Rattle.ch_space.specs.Pieces.{listed};
ghost use Rattle.ch_tile.specs.Pieces.{AllBecome};
ghost use Rattle.ch_tile.specs.Tiled.{tile_cause, tiled, too_deep};
ghost use Rattle.ch_timed.specs.Groups.{in_group};
ghost use Rattle.ch_timed.specs.Timed.{pieces};

use crate::cause::tile_cause;
use crate::pieces::tiled_if;
use ch_affine::List;
use ch_moved::causes::index;
use ch_moved::closed_space;
use ch_space::{Piece, ShapeError, Space, share};
use std::alloc::{AllocError, Global};

/// The pieces, those tiled that share the level `outer` with one of them.
fn tiled_pieces(
    alloc: Global,
    pieces: &[Piece],
    number: usize,
    level: usize,
    size: u32,
    outer: usize,
) -> Result<List<Piece>, AllocError>
    requires apart { AreApart pieces.now }
    requires number { number < length pieces.now }
    requires room { All (HasRoom 1) pieces.now }
    requires around { 1 ≤ outer }
    requires outer { outer ≤ level }
    requires some { 1 ≤ size }
    requires small { size ≤ 4096 }
    requires shared { unshared (listed pieces.now) number outer level ≡ None }
    requires shallow { too_deep (listed pieces.now) number outer ≡ None }
    ensures { IfOk result
        (AllBecome (in_group (listed pieces.now) number outer) (level - 1) size (outer - 1) pieces.now) }
{
    let ours = pieces[number].places.as_slice();
    let mut new = List::with_capacity(alloc, pieces.len())?;
    for piece in pieces {
        let is_inside = share(outer, ours, piece.places.as_slice());
        new.push(tiled_if(alloc, piece, is_inside, level - 1, size, outer - 1)?)?;
    }
    Ok(new)
}

/// The space, where nothing forbids the command.
fn tiled(
    alloc: Global,
    space: &Space,
    number: u32,
    level: usize,
    size: u32,
    outer: usize,
) -> Result<Space, AllocError>
    requires few { space.now.commands < 32 }
    requires number { number < length (pieces space.now.list) }
    requires around { 1 ≤ outer }
    requires outer { outer ≤ level }
    requires some { 1 ≤ size }
    requires small { size ≤ 4096 }
    requires shared { unshared space.now.list number outer level ≡ None }
    requires shallow { too_deep space.now.list number outer ≡ None }
    ensures list { IfOk result (λ new.
        new.list ≡ tiled space.now.list (pos number) (pos level) (pos size) (pos outer)) }
    ensures kept { IfOk result (λ new. AreAmong space.now.list new.list) }
    ensures no_others { IfOk result (λ new. AreAmong new.list space.now.list) }
    ensures arrays { IfOk result (λ new. new.arrays ≡ space.now.arrays) }
    ensures temps { IfOk result (λ new. new.temps ≡ space.now.temps) }
    ensures weight { IfOk result (λ new. new.weight ≡ space.now.weight) }
    ensures commands { IfOk result (λ new. new.commands ≡ space.now.commands + 1) }
{
    let all = space.pieces.as_slice();
    let pieces = tiled_pieces(alloc, all, number as usize, level, size, outer)?;
    let counts = List::from_slice(alloc, space.counts.as_slice())?;
    closed_space(alloc, space, pieces, counts, space.weight)
}

/// The space with the values of a level in tiles of `size` values. A new loop over the tiles
/// becomes level `outer`, counted from 1, of the pieces that share this level with the piece, and
/// the loops from there on stand in it. All else stays.
///
/// It is refused, the first of these causes counting, where there is no such piece, where it
/// doesn't have the level, where `outer` isn't one of 1 to the level, where the size isn't one of 1
/// to 4096, where a piece shares level `outer` but not the level that is tiled, and where a piece
/// would have more than 10 levels. It is not tested whether the program means the same.
pub fn tile(
    alloc: Global,
    space: &Space,
    piece: i64,
    level: i64,
    size: i64,
    outer: i64,
) -> Result<Space, ShapeError>
    requires few { space.now.commands < 32 }
    ensures cause { Answers result (tile_cause space.now.list piece level size outer) }
    ensures list { IfOk result (λ new. new.list ≡ tiled space.now.list piece level size outer) }
    ensures kept { IfOk result (λ new. AreAmong space.now.list new.list) }
    ensures no_others { IfOk result (λ new. AreAmong new.list space.now.list) }
    ensures arrays { IfOk result (λ new. new.arrays ≡ space.now.arrays) }
    ensures temps { IfOk result (λ new. new.temps ≡ space.now.temps) }
    ensures weight { IfOk result (λ new. new.weight ≡ space.now.weight) }
    ensures commands { IfOk result (λ new. new.commands ≡ space.now.commands + 1) }
{
    if let Some(shape) = tile_cause(space, piece, level, size, outer) {
        return Err(ShapeError::Shape(shape));
    }
    let number = index(space, piece);
    let new = tiled(
        alloc,
        space,
        number,
        level as usize,
        size as u32,
        outer as usize,
    )?;
    Ok(new)
}
