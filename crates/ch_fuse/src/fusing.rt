//! Loops side by side made one.

ghost use Rattle.std.specs.Prelude.{◌≡◌, ◌+◌, ◌-◌, ◌<◌, ◌≤◌, ◌^◌, None, true, pos};
ghost use Rattle.std.specs.Prelude.{if◌then◌else◌, length, map, take, IfOk, MatchOption};
ghost use Rattle.std.specs.Int.{int_min};
ghost use Rattle.ch_fuse.specs.Fused.{body_width, elsewhere, first_place, fuse_cause};
ghost use Rattle.ch_fuse.specs.Fused.{fused, fused_places, fuses, in_groups};
ghost use Rattle.ch_moved.specs.Arguments.{natural};
ghost use Rattle.ch_moved.specs.Causes.{first_failing, no_piece, Answers};
ghost use Rattle.ch_order.specs.Legal.{AreAmong};
ghost use Rattle.ch_pieces.specs.Candidates.{AreCandidates};
ghost use Rattle.ch_timed.specs.Groups.{piece};
ghost use Rattle.ch_timed.specs.Timed.{pieces};
ghost use Rattle.ch_timed.specs.Vectors.{same_numbers};

use crate::placing::{begin_alike, natural, place_at, placed};
use ch_affine::List;
use ch_moved::causes::{index, named_twice, no_level, no_piece};
use ch_nest::Shape;
use ch_pieces::{Candidate, moved_space, wide_places};
use ch_space::{ShapeError, Space, pieces, places, share};
use std::alloc::{AllocError, Global};

/// The first of the pieces that doesn't begin with the same places, so many of them.
fn first_elsewhere(space: &Space, ours: &[u32], count: usize, numbers: &[i64]) -> Option<Shape>
    requires { no_piece space.now.list numbers.now ≡ None }
    ensures { result ≡ first_failing 5 (λ t.
        same_numbers (take count (map pos ours.now)) (take count (piece space.now.list (natural t)))) numbers.now }
{
    for number in numbers {
        if !begin_alike(count, ours, places(space, index(space, *number))) {
            return Some(Shape {
                code: 5,
                number: i128::from(*number),
            });
        }
    }
    None
}

/// The first named piece that doesn't stand behind the same places as the first one.
fn elsewhere(space: &Space, numbers: &[i64], level: usize) -> Option<Shape>
    requires { no_piece space.now.list numbers.now ≡ None }
    ensures { result ≡ elsewhere space.now.list numbers.now (pos level) }
{
    let Some((first, others)) = numbers.split_first() else {
        return None;
    };
    let ours = places(space, index(space, *first));
    first_elsewhere(space, ours, level.saturating_sub(1), others)
}

/// Why the shape of the program forbids to fuse, the first cause of all.
fn fuse_cause(space: &Space, numbers: &[i64], level: i64) -> Option<Shape>
    ensures { result ≡ fuse_cause space.now.list numbers.now level }
{
    if let Some(shape) = no_piece(space, numbers) {
        return Some(shape);
    }
    if let Some(shape) = no_level(space, numbers, level) {
        return Some(shape);
    }
    if let Some(shape) = named_twice(numbers) {
        return Some(shape);
    }
    elsewhere(space, numbers, natural(level))
}

/// Whether the places are in the group of one of the named pieces.
fn in_groups(space: &Space, numbers: &[i64], level: usize, theirs: &[u32]) -> bool
    requires { no_piece space.now.list numbers.now ≡ None }
    ensures { result ≡ in_groups space.now.list numbers.now (pos level) (map pos theirs.now) }
{
    for number in numbers {
        if share(level, places(space, index(space, *number)), theirs) {
            return true;
        }
    }
    false
}

/// How many places the body of one loop takes.
fn body_width(space: &Space, numbers: &[i64], level: usize) -> u64
    requires { no_piece space.now.list numbers.now ≡ None }
    ensures value { pos result ≡ body_width space.now.list numbers.now (pos level) }
    ensures few { result ≤ 2 ^ 32 }
{
    let mut greatest = 0;
    for k in 0..pieces(space) {
        let theirs = places(space, k);
        if in_groups(space, numbers, level, theirs) {
            greatest = place_at(level, theirs).max(greatest);
        }
    }
    1 + u64::from(greatest)
}

/// The lesser one of the place and the least one so far, if any.
fn lesser(least: Option<u32>, place: u32) -> u32
    ensures { MatchOption least (result ≡ place) (λ so_far.
        pos result ≡ int_min (pos so_far) (pos place)) }
{
    match least {
        None => place,
        Some(so_far) => so_far.min(place),
    }
}

/// The place of the first of the loops, or 0 where there are none.
fn first_place(space: &Space, numbers: &[i64], level: usize) -> u32
    requires { no_piece space.now.list numbers.now ≡ None }
    ensures { pos result ≡ first_place space.now.list numbers.now (pos level) }
{
    let mut least = None;
    for k in 0..pieces(space) {
        let theirs = places(space, k);
        if in_groups(space, numbers, level, theirs) {
            least = Some(lesser(least, place_at(level.saturating_sub(1), theirs)));
        }
    }
    least.unwrap_or(0)
}

/// The places of a piece of one of the loops, in the body behind the place of the first one.
fn fused_places(
    alloc: Global,
    places: &[u32],
    level: usize,
    width: u64,
    first: u32,
) -> Result<List<u64>, AllocError>
    requires some { 1 ≤ level }
    requires deep { level < length places.now }
    requires width { width ≤ 2 ^ 32 }
    ensures { IfOk result (λ new. map pos new
        ≡ fused_places level (pos width) (pos first) (map pos places.now)) }
{
    let mut fused = wide_places(alloc, places)?;
    let place = u64::from(places[level - 1]) * width + u64::from(places[level]);
    fused.as_mut_slice()[level] = place;
    fused.as_mut_slice()[level - 1] = u64::from(first);
    Ok(fused)
}

/// The new places of a piece.
fn fused_if(
    alloc: Global,
    is_fused: bool,
    places: &[u32],
    level: usize,
    width: u64,
    first: u32,
) -> Result<List<u64>, AllocError>
    requires some { is_fused ≡ true → 1 ≤ level }
    requires deep { is_fused ≡ true → level < length places.now }
    requires width { width ≤ 2 ^ 32 }
    ensures { IfOk result (λ new. map pos new ≡ (if is_fused
        then fused_places level (pos width) (pos first) (map pos places.now) else map pos places.now)) }
{
    if is_fused {
        fused_places(alloc, places, level, width, first)
    } else {
        wide_places(alloc, places)
    }
}

/// The pieces at their new places.
fn fused_candidates(
    alloc: Global,
    space: &Space,
    numbers: &[i64],
    level: i64,
) -> Result<List<Candidate>, AllocError>
    requires { fuse_cause space.now.list numbers.now level ≡ None }
    ensures are { IfOk result (AreCandidates (fuses space.now.list numbers.now level)
        space.now.list space.now.weight (space.now.commands + 1)) }
    ensures many { IfOk result (λ candidates. length candidates ≡ length (pieces space.now.list)) }
{
    let depth = natural(level);
    let width = body_width(space, numbers, depth);
    let first = first_place(space, numbers, depth);
    let pieces = space.pieces.as_slice();
    let counts = space.counts.as_slice();
    let mut candidates = List::with_capacity(alloc, pieces.len())?;
    for k in 0..pieces.len() {
        let piece = &pieces[k];
        let places = piece.places.as_slice();
        let is_fused = in_groups(space, numbers, depth, places);
        let new = fused_if(alloc, is_fused, places, depth, width, first)?;
        candidates.push(placed(alloc, piece, new, counts[k])?)?;
    }
    Ok(candidates)
}

/// The space with the loops of the named pieces at the level made one, in the place of the first of
/// them; their bodies stand in it one after another, in the order of the loops. It is not tested
/// whether the program means the same.
///
/// C1: a number isn't a piece's. C2: a piece doesn't have the level. C3: a piece is named twice.
/// C5: a named piece doesn't stand behind the same places as the first one.
pub fn fuse(alloc: Global, space: &Space, pieces: &[i64], level: i64) -> Result<Space, ShapeError>
    requires few { space.now.commands < 32 }
    ensures cause { Answers result (fuse_cause space.now.list pieces.now level) }
    ensures list { IfOk result (λ new. new.list ≡ fused space.now.list pieces.now level) }
    ensures kept { IfOk result (λ new. AreAmong space.now.list new.list) }
    ensures no_others { IfOk result (λ new. AreAmong new.list space.now.list) }
    ensures arrays { IfOk result (λ new. new.arrays ≡ space.now.arrays) }
    ensures temps { IfOk result (λ new. new.temps ≡ space.now.temps) }
    ensures weight { IfOk result (λ new. new.weight ≡ space.now.weight) }
    ensures commands { IfOk result (λ new. new.commands ≡ space.now.commands + 1) }
{
    if let Some(shape) = fuse_cause(space, pieces, level) {
        return Err(ShapeError::Shape(shape));
    }
    let candidates = fused_candidates(alloc, space, pieces, level)?;
    moved_space(alloc, space, candidates, space.weight)
}
