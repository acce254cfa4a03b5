//! How large a program may get by a copy.

ghost use Rattle.std.specs.Prelude.{◌≡◌, ◌+◌, ◌≤◌, ◌^◌, max, nat_le, length, map, IsTrue, Some};
ghost use Rattle.std.specs.List.{list_all, sum};
ghost use Rattle.ch_datacopy.specs.Causes.{above, above_first, deepest, most_cells, not_there};
ghost use Rattle.ch_nest.specs.Arrays.{cells_in};
ghost use Rattle.ch_space.specs.Keeps.{most_instances, most_levels, most_pieces, places_of};

use ch_nest::Shape;
use ch_space::Piece;

/// The most pieces of a space.
const MOST_PIECES: u128 = 256;

/// The most levels of a piece.
const MOST_LEVELS: u128 = 10;

/// The most cells of a buffer.
const MOST_CELLS: u128 = 65_536;

/// The most elements of a list.
const MOST_INSTANCES: u128 = 2_097_152;

/// C10: the array isn't declared, or the loop has no access of it.
pub(crate) fn not_there() -> Shape
    ensures { Some result ≡ not_there }
{
    Shape {
        code: 10,
        number: 0,
    }
}

/// The cause of this code, where the number is above the limit.
fn above(code: u32, most: u128, number: u128) -> Option<Shape>
    requires { number ≤ 2 ^ 100 }
    ensures { result ≡ above code most number }
{
    if number > most {
        return Some(Shape {
            code,
            number: number as i128,
        });
    }
    None
}

/// How many levels the deepest piece has.
fn deepest(pieces: &[Piece]) -> usize
    ensures { result ≡ deepest (map places_of pieces.now) }
{
    let mut deepest = 0;
    for piece in pieces {
        deepest = piece.places.len().saturating_sub(1).max(deepest);
    }
    deepest
}

/// C7, or C8: with so many moves there are too many pieces, or with moves of so many levels they
/// are too deep.
pub(crate) fn too_many(pieces: &[Piece], moves: usize, levels: u32) -> Option<Shape>
    ensures { result ≡ above_first (length pieces.now + moves)
        (max (deepest (map places_of pieces.now)) levels) }
{
    let many = pieces.len() as u128 + moves as u128;
    if let Some(shape) = above(7, MOST_PIECES, many) {
        return Some(shape);
    }
    let deep = deepest(pieces).max(levels as usize);
    above(8, MOST_LEVELS, deep as u128)
}

/// How many cells a buffer of these extents has.
fn cells_in(extents: &[u32]) -> u128
    requires few { cells_in extents.now ≤ 2 ^ 100 }
    requires some { IsTrue (list_all (nat_le 1) extents.now) }
    ensures { result ≡ cells_in extents.now }
{
    match extents {
        [] => 1,
        [extent, inner @ ..] => u128::from(*extent) * cells_in(inner),
    }
}

/// C9: a buffer of these extents has too many cells.
pub(crate) fn too_wide(extents: &[u32]) -> Option<Shape>
    requires few { cells_in extents.now ≤ 2 ^ 100 }
    requires some { IsTrue (list_all (nat_le 1) extents.now) }
    ensures { result ≡ above 9 most_cells (cells_in extents.now) }
{
    above(9, MOST_CELLS, cells_in(extents))
}

fn total(counts: &[u64]) -> u128
    requires { length counts.now ≤ 2 ^ 20 }
    ensures value { result ≡ sum counts.now }
    ensures near { result ≤ 2 ^ 84 }
{
    let mut total = 0;
    for count in counts {
        total += u128::from(*count);
    }
    total
}

/// C11: so many elements of each piece are too many.
pub(crate) fn too_long(counts: &[u64]) -> Option<Shape>
    requires { length counts.now ≤ 2 ^ 20 }
    ensures { result ≡ above 11 most_instances (sum counts.now) }
{
    above(11, MOST_INSTANCES, total(counts))
}
