//! Closing up: the places of a space's pieces renumbered 0, 1, 2 and so on among those that follow
//! the same places.

ghost use Rattle.std.specs.Prelude.{◌≡◌, ◌<◌, ◌≤◌, List, [], length, map, IfOk, OnOk, OnErr};
ghost use Rattle.std.specs.List.{All};
ghost use Rattle.ch_timed.specs.Closed.{closed_up};
ghost use Rattle.ch_space.specs.Keeps.{AreApart, places_of};
ghost use Rattle.ch_space.specs.Renumbered.{AreRanks, all_placed, next_places};

use crate::piece::Piece;
use crate::space::Space;
use ch_affine::List;
use std::alloc::{AllocError, Global};

/// Closes the places of a space up. By its type a space has no piece without instances, so none has
/// to be dropped. Where memory runs out the space stays as it is.
pub fn close_up(alloc: Global, space: &mut Space) -> Result<(), AllocError>
    ensures list { OnOk result (space.new.list ≡ closed_up space.old.list) }
    ensures arrays { space.new.arrays ≡ space.old.arrays }
    ensures temps { space.new.temps ≡ space.old.temps }
    ensures weight { space.new.weight ≡ space.old.weight }
    ensures commands { space.new.commands ≡ space.old.commands }
    ensures err { OnErr result (space.new ≡ space.old) }
{
    let closed = closed_places(alloc, space.pieces.as_slice())?;
    place_all(space.pieces.as_mut_slice(), closed);
    Ok(())
}

/// The places of each piece, closed up. Each follows from those of the piece before, as the pieces
/// stand in order.
fn closed_places(alloc: Global, pieces: &[Piece]) -> Result<List<List<u32>>, AllocError>
    requires apart { AreApart pieces.now }
    requires few { length pieces.now ≤ 2097152 }
    ensures { IfOk result (λ closed. AreRanks (map places_of pieces.now) pieces.now closed) }
{
    let mut closed = List::with_capacity(alloc, pieces.len())?;
    for k in 0..pieces.len() {
        let places = pieces[k].places.as_slice();
        let next = if k == 0 {
            numbers_after(alloc, &[], &[], places)?
        } else {
            let before: &List<u32> = &closed.as_slice()[k - 1];
            numbers_after(
                alloc,
                pieces[k - 1].places.as_slice(),
                before.as_slice(),
                places,
            )?
        };
        closed.push(next)?;
    }
    Ok(closed)
}

/// The closed up places of a piece, from the old and the closed up ones of the piece before.
fn numbers_after(
    alloc: Global,
    before: &[u32],
    closed: &[u32],
    places: &[u32],
) -> Result<List<u32>, AllocError>
    requires same { length closed.now ≡ length before.now }
    requires small { All (λ c. c ≤ 2097152) closed.now }
    ensures { IfOk result (λ numbers. numbers ≡ next_places before.now closed.now places.now) }
{
    let mut numbers = List::with_capacity(alloc, places.len())?;
    // The places before, none of them once one has differed.
    let mut like: &[u32] = before;
    for k in 0..places.len() {
        if like.len() <= k {
            numbers.push(0)?;
        } else if like[k] == places[k] {
            numbers.push(closed[k])?;
        } else {
            numbers.push(closed[k] + 1)?;
            like = &[];
        }
    }
    Ok(numbers)
}

/// Gives each piece its new places.
fn place_all(pieces: &mut [Piece], mut closed: List<List<u32>>)
    requires { length closed ≤ length pieces.old }
    ensures { pieces.new ≡ all_placed pieces.old closed }
{
    while let Some(places) = closed.pop() {
        pieces[closed.len()].places = places;
    }
}
