//! The next element of a space after a time vector. An instance comes after the vector where it
//! differs from it first in a greater place or a greater loop value; the least such instance is the
//! one that stays like the vector longest.

ghost use Rattle.std.specs.Prelude.{◌≡◌, ◌≤◌, ◌<◌, ◌+◌, ◌^◌, pos, [], ◌++◌};
ghost use Rattle.std.specs.Prelude.{◌∷◌, length, map, IfOk, MatchOption};
ghost use Rattle.std.specs.List.{All};
ghost use Rattle.ch_affine.specs.Affine.{IsAtMost};
ghost use Rattle.ch_affine.specs.Rows.{IsBox};
ghost use Rattle.ch_timed.specs.Members.{In};
ghost use Rattle.ch_timed.specs.Next.{next_after};
ghost use Rattle.ch_timed.specs.Vectors.{woven};
ghost use Rattle.ch_space.specs.Following.{BeginsIn, BeginsWith, ComesAfter, HasEmpty};
ghost use Rattle.ch_space.specs.Following.{IsAbove, IsAny, IsLeast, IsNext, earlier};
ghost use Rattle.ch_space.specs.Following.{narrowed, shared, single, with_boxes};
ghost use Rattle.ch_space.specs.Keeps.{AreApart, IsWhole};
ghost use Rattle.ch_space.specs.Pieces.{element_at, elements, instances, listed};

use crate::copies::copied_body;
use crate::extremes::identity_at;
use crate::piece::Piece;
use crate::space::Space;
use ch_affine::{LARGEST_END, List, Range, System, copied_forms};
use ch_poly::least_point;
use ch_timed::{Element, Timed};
use std::alloc::{AllocError, Global};

impl Timed for Space {
    ghost list = { λ s. s.list };

    fn known(&self) {
        let _commands = self.commands;
    }

    fn after(&self, alloc: Global, vector: &[i64]) -> Result<Option<Element>, AllocError> {
        next_of(alloc, self.pieces.as_slice(), vector)
    }
}

/// The next element of some pieces: the least of those that come next in each.
fn next_of(alloc: Global, pieces: &[Piece], vector: &[i64]) -> Result<Option<Element>, AllocError>
    requires apart { AreApart pieces.now }
    requires near { All (λ e. All (IsAtMost (2 ^ 54)) e.identity.iters) (listed pieces.now) }
    ensures { IfOk result (λ next. next ≡ next_after vector.now (listed pieces.now)) }
{
    let mut next = None;
    for piece in pieces {
        next = earlier(next, element_after(alloc, piece, vector)?);
    }
    Ok(next)
}

/// The one whose vector comes first.
fn earlier(first: Option<Element>, second: Option<Element>) -> Option<Element>
    ensures { result ≡ earlier first second }
{
    match (first, second) {
        (None, second) => second,
        (first, None) => first,
        (Some(first), Some(second)) => {
            let order = second.vector.as_slice().cmp(first.vector.as_slice());
            if order.is_lt() {
                Some(second)
            } else {
                Some(first)
            }
        }
    }
}

/// The first of a piece's elements that comes after the vector.
fn element_after(
    alloc: Global,
    piece: &Piece,
    vector: &[i64],
) -> Result<Option<Element>, AllocError>
    requires whole { IsWhole piece.now }
    requires near { All (λ e. All (IsAtMost (2 ^ 54)) e.identity.iters) (elements piece.now) }
    ensures { IfOk result (λ next. IsNext vector.now (elements piece.now) next) }
{
    match least_after(alloc, piece, &[], piece.places.as_slice(), vector)? {
        None => Ok(None),
        Some(instance) => {
            let element = element_at(alloc, piece, instance.as_slice())?;
            Ok(Some(element))
        }
    }
}

/// The element of a piece at one of its instances.
fn element_at(alloc: Global, piece: &Piece, instance: &[i64]) -> Result<Element, AllocError>
    requires whole { IsWhole piece.now }
    requires one { In instance.now (instances piece.now) }
    requires near { All (λ e. All (IsAtMost (2 ^ 54)) e.identity.iters) (elements piece.now) }
    ensures { IfOk result (λ element. element ≡ element_at piece.now instance.now) }
{
    let identity = identity_at(alloc, piece, instance)?;
    let vector = woven(alloc, piece.places.as_slice(), instance)?;
    let body = copied_body(alloc, &piece.body)?;
    Ok(Element {
        identity,
        vector,
        body,
    })
}

/// The vector of these places and loop values.
pub fn woven(alloc: Global, places: &[u32], values: &[i64]) -> Result<List<i64>, AllocError>
    requires { length places.now ≡ length values.now + 1 }
    ensures { IfOk result (λ vector. vector ≡ woven (map pos places.now) values.now) }
{
    let mut vector = List::new(alloc);
    vector.push(i64::from(places[0]))?;
    for k in 0..values.len() {
        vector.push(values[k])?;
        vector.push(i64::from(places[k + 1]))?;
    }
    Ok(vector)
}

/// The least instance of a piece that begins with `fixed` and whose vector from there on comes
/// after this one. `places` are those that are left, one more than the levels behind `fixed`.
fn least_after(
    alloc: Global,
    piece: &Piece,
    fixed: &[i64],
    places: &[u32],
    vector: &[i64],
) -> Result<Option<List<i64>>, AllocError>
    requires whole { IsWhole piece.now }
    requires long { length fixed.now + length places.now ≡ piece.now.levels + 1 }
    ensures { IfOk result (λ least. IsLeast
        (BeginsWith fixed.now (ComesAfter (map pos places.now) vector.now))
        (instances piece.now) least) }
{
    let Some((place, inner)) = places.split_first() else {
        return Ok(None);
    };
    let Some((now, later)) = vector.split_first() else {
        return least_with(alloc, piece, fixed);
    };
    let place = i64::from(*place);
    if *now < place {
        return least_with(alloc, piece, fixed);
    }
    if *now > place || inner.is_empty() {
        return Ok(None);
    }
    let Some((value, behind)) = later.split_first() else {
        return least_with(alloc, piece, fixed);
    };
    let mut next = List::from_slice(alloc, fixed)?;
    next.push(*value)?;
    match least_after(alloc, piece, next.as_slice(), inner, behind)? {
        Some(instance) => Ok(Some(instance)),
        None => least_beyond(alloc, piece, fixed, *value),
    }
}

/// The least instance that begins with `fixed`.
fn least_with(alloc: Global, piece: &Piece, fixed: &[i64]) -> Result<Option<List<i64>>, AllocError>
    requires whole { IsWhole piece.now }
    requires few { length fixed.now ≤ piece.now.levels }
    ensures { IfOk result (λ least.
        IsLeast (BeginsWith fixed.now IsAny) (instances piece.now) least) }
{
    let front = singles(alloc, fixed)?;
    least_in(alloc, piece, front.as_slice())
}

/// The least instance that begins with `fixed` and goes on with a value above this one.
fn least_beyond(
    alloc: Global,
    piece: &Piece,
    fixed: &[i64],
    value: i64,
) -> Result<Option<List<i64>>, AllocError>
    requires whole { IsWhole piece.now }
    requires few { length fixed.now < piece.now.levels }
    ensures { IfOk result (λ least.
        IsLeast (BeginsWith fixed.now (IsAbove value)) (instances piece.now) least) }
{
    piece.system.known();
    if value >= LARGEST_END {
        return Ok(None);
    }
    let mut front = singles(alloc, fixed)?;
    front.push(Range {
        low: value + 1,
        high: LARGEST_END,
    })?;
    least_in(alloc, piece, front.as_slice())
}

/// For each value the range of it alone.
fn singles(alloc: Global, values: &[i64]) -> Result<List<Range>, AllocError>
    ensures { IfOk result (λ ranges. ranges ≡ map single values.now) }
{
    let mut ranges = List::with_capacity(alloc, values.len())?;
    for value in values {
        ranges.push(Range {
            low: *value,
            high: *value,
        })?;
    }
    Ok(ranges)
}

/// The least instance whose first values are in these ranges.
fn least_in(alloc: Global, piece: &Piece, front: &[Range]) -> Result<Option<List<i64>>, AllocError>
    requires whole { IsWhole piece.now }
    requires few { length front.now ≤ piece.now.levels }
    ensures { IfOk result (λ least. IsLeast (BeginsIn front.now) (instances piece.now) least) }
{
    let Some(system) = narrowed_system(alloc, &piece.system, front)? else {
        return Ok(None);
    };
    match least_point(alloc, &system)? {
        None => Ok(None),
        Some(point) => {
            let instance = List::from_slice(alloc, &point.as_slice()[..piece.levels as usize])?;
            Ok(Some(instance))
        }
    }
}

/// The system with its first ranges narrowed to those in front. None where one of them has no
/// number then.
fn narrowed_system(
    alloc: Global,
    system: &System,
    front: &[Range],
) -> Result<Option<System>, AllocError>
    ensures { IfOk result (λ some. MatchOption some
        (HasEmpty (narrowed system.now.boxes front.now))
        (λ narrow. narrow ≡ with_boxes system.now (narrowed system.now.boxes front.now))) }
{
    let Some(boxes) = narrowed(alloc, system.boxes.as_slice(), front)? else {
        return Ok(None);
    };
    Ok(Some(System {
        vars: system.vars,
        rows: copied_forms(alloc, system.rows.as_slice())?,
        boxes,
    }))
}

/// The ranges, the first of them narrowed to those in front. None where one of them has no number
/// then.
fn narrowed(
    alloc: Global,
    boxes: &[Range],
    front: &[Range],
) -> Result<Option<List<Range>>, AllocError>
    requires { All IsBox boxes.now }
    ensures { IfOk result (λ some. MatchOption some
        (HasEmpty (narrowed boxes.now front.now))
        (λ narrow. (narrow ≡ narrowed boxes.now front.now) × All IsBox narrow)) }
{
    let mut narrow = List::with_capacity(alloc, boxes.len())?;
    for k in 0..boxes.len() {
        let range = if k < front.len() {
            shared(boxes[k], front[k])
        } else {
            boxes[k]
        };
        if range.high < range.low {
            return Ok(None);
        }
        narrow.push(range)?;
    }
    Ok(Some(narrow))
}

/// The numbers of both ranges.
fn shared(first: Range, second: Range) -> Range
    ensures { result ≡ shared first second }
{
    Range {
        low: first.low.max(second.low),
        high: first.high.min(second.high),
    }
}
