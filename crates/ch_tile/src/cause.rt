//! Why a loop can't be tiled.

ghost use Rattle.std.specs.Prelude.{◌≡◌, ◌<◌, [], ◌∷◌, None, length, map};
ghost use Rattle.ch_moved.specs.Arguments.{natural};
ghost use Rattle.ch_moved.specs.Causes.{first_of, no_level, no_piece, unshared};
ghost use Rattle.ch_tile.specs.Tiled.{greatest, new_depth, no_outer};
ghost use Rattle.ch_tile.specs.Tiled.{no_size, tile_cause, too_deep};
ghost use Rattle.ch_timed.specs.Groups.{piece};
ghost use Rattle.ch_timed.specs.Timed.{pieces};

use ch_moved::causes::{index, no_level, no_piece, unshared};
use ch_moved::groups::in_group;
use ch_nest::Shape;
use ch_space::{Space, pieces, places};

/// The largest size of a tile.
const LARGEST: i64 = 4096;

/// The most levels of a piece.
const MOST_LEVELS: usize = 10;

/// The level of the new loop, where it isn't one of 1 to the level that is tiled.
fn no_outer(level: i64, outer: i64) -> Option<Shape>
    ensures { result ≡ no_outer level outer }
{
    if outer < 1 || outer > level {
        return Some(Shape {
            code: 2,
            number: i128::from(outer),
        });
    }
    None
}

/// The size, where no tile has it.
fn no_size(size: i64) -> Option<Shape>
    ensures { result ≡ no_size size }
{
    if size < 1 || size > LARGEST {
        return Some(Shape {
            code: 4,
            number: i128::from(size),
        });
    }
    None
}

/// How many levels the piece of that number has once the group of our piece has one more.
fn new_depth(space: &Space, ours: u32, outer: usize, number: u32) -> usize
    requires ours { ours < length (pieces space.now.list) }
    requires number { number < length (pieces space.now.list) }
    ensures { result ≡ new_depth space.now.list ours outer (piece space.now.list number) }
{
    let places = places(space, number).len();
    if in_group(space, ours, outer, number) {
        places
    } else {
        places.saturating_sub(1)
    }
}

/// How many levels the deepest piece has once the group of our piece has one more.
fn greatest_depth(space: &Space, ours: u32, outer: usize) -> usize
    requires ours { ours < length (pieces space.now.list) }
    ensures { result ≡ greatest (map (new_depth space.now.list ours outer) (pieces space.now.list)) }
{
    let mut greatest = 0;
    for number in 0..pieces(space) {
        greatest = greatest.max(new_depth(space, ours, outer, number));
    }
    greatest
}

/// How many levels the deepest piece would have, where these are too many.
fn too_deep(space: &Space, ours: u32, outer: usize) -> Option<Shape>
    requires ours { ours < length (pieces space.now.list) }
    ensures { result ≡ too_deep space.now.list ours outer }
{
    let depth = greatest_depth(space, ours, outer);
    if depth > MOST_LEVELS {
        return Some(Shape {
            code: 8,
            number: depth as i128,
        });
    }
    None
}

/// The causes that need a piece and two of its levels.
fn group_cause(space: &Space, ours: u32, level: usize, outer: usize) -> Option<Shape>
    requires ours { ours < length (pieces space.now.list) }
    ensures { result ≡ first_of
        (unshared space.now.list ours outer level ∷ too_deep space.now.list ours outer ∷ []) }
{
    match unshared(space, ours, outer, level) {
        Some(cause) => Some(cause),
        None => too_deep(space, ours, outer),
    }
}

/// The causes that speak of the numbers alone, and then those of the group.
fn level_cause(space: &Space, ours: u32, level: i64, size: i64, outer: i64) -> Option<Shape>
    requires ours { ours < length (pieces space.now.list) }
    ensures { result ≡ first_of (no_outer level outer ∷ no_size size
        ∷ unshared space.now.list ours (natural outer) (natural level) ∷ too_deep space.now.list ours (natural outer) ∷ []) }
{
    if let Some(cause) = no_outer(level, outer) {
        return Some(cause);
    }
    if let Some(cause) = no_size(size) {
        return Some(cause);
    }
    group_cause(space, ours, level as usize, outer as usize)
}

/// The first cause that forbids the command.
pub(crate) fn tile_cause(
    space: &Space,
    piece: i64,
    level: i64,
    size: i64,
    outer: i64,
) -> Option<Shape>
    ensures { result ≡ tile_cause space.now.list piece level size outer }
{
    if let Some(cause) = no_piece(space, &[piece]) {
        return Some(cause);
    }
    if let Some(cause) = no_level(space, &[piece], level) {
        return Some(cause);
    }
    level_cause(space, index(space, piece), level, size, outer)
}
