//! The places of parts that stand in order, closed up: renumbered 0, 1, 2 and so on among those
//! that follow the same places.

ghost use Rattle.std.specs.Prelude.{◌≡◌, ◌≤◌, length, map, IfOk};
ghost use Rattle.std.specs.List.{All};
ghost use Rattle.ch_pieces.specs.InOrder.{wide_part};
ghost use Rattle.ch_space.specs.Keeps.{AreApart, places_of};
ghost use Rattle.ch_space.specs.Renumbered.{AreRanks, all_placed, next_places};

use crate::parts::Part;
use ch_affine::List;
use ch_space::Piece;
use std::alloc::{AllocError, Global};

/// The places of each part, closed up. Each follows from those of the part before, as the parts
/// stand in order.
pub(crate) fn closed_places(alloc: Global, parts: &[Part]) -> Result<List<List<u32>>, AllocError>
    requires apart { AreApart (map wide_part parts.now) }
    requires few { length parts.now ≤ 2097152 }
    ensures { IfOk result (λ closed.
        AreRanks (map places_of (map wide_part parts.now)) (map wide_part parts.now) closed) }
{
    let mut closed = List::with_capacity(alloc, parts.len())?;
    for k in 0..parts.len() {
        let places = parts[k].places.as_slice();
        let next = if k == 0 {
            numbers_after(alloc, &[], &[], places)?
        } else {
            let before: &List<u32> = &closed.as_slice()[k - 1];
            numbers_after(
                alloc,
                parts[k - 1].places.as_slice(),
                before.as_slice(),
                places,
            )?
        };
        closed.push(next)?;
    }
    Ok(closed)
}

/// The closed up places of a part, from the old and the closed up ones of the part before.
fn numbers_after(
    alloc: Global,
    before: &[u64],
    closed: &[u32],
    places: &[u64],
) -> Result<List<u32>, AllocError>
    requires same { length closed.now ≡ length before.now }
    requires small { All (λ c. c ≤ 2097152) closed.now }
    ensures { IfOk result (λ numbers. numbers ≡ next_places before.now closed.now places.now) }
{
    let mut numbers = List::with_capacity(alloc, places.len())?;
    // The places before, none of them once one has differed.
    let mut like: &[u64] = before;
    for k in 0..places.len() {
        if like.len() <= k {
            numbers.push(0)?;
        } else if like[k] == places[k] {
            numbers.push(closed[k])?;
        } else {
            numbers.push(closed[k] + 1)?;
            like = &[];
        }
    }
    Ok(numbers)
}

/// Gives each piece its places.
pub(crate) fn place_all(pieces: &mut [Piece], mut closed: List<List<u32>>)
    requires { length closed ≤ length pieces.old }
    ensures { pieces.new ≡ all_placed pieces.old closed }
{
    while let Some(places) = closed.pop() {
        pieces[closed.len()].places = places;
    }
}
