//! The first and the last element of a piece, from the least points of its system and of the
//! negated one.

ghost use Rattle.std.specs.Prelude.{◌≡◌, ◌≢◌, ◌<◌, ◌^◌, [], Some, length, map, IfOk};
ghost use Rattle.std.specs.List.{All};
ghost use Rattle.ch_affine.specs.Affine.{IsAtMost};
ghost use Rattle.ch_affine.specs.Rows.{IsBox};
ghost use Rattle.ch_poly.specs.Points.{first};
ghost use Rattle.ch_timed.specs.Members.{In};
ghost use Rattle.ch_timed.specs.Timed.{pieces};
ghost use Rattle.ch_space.specs.Keeps.{IsWhole};
ghost use Rattle.ch_space.specs.Members.{identities, last, members};
ghost use Rattle.ch_space.specs.Pieces.{element_at, elements, instances};
ghost use Rattle.ch_space.specs.Negated.{negatives, negated, negated_form, negated_range};

use crate::piece::Piece;
use crate::space::Space;
use ch_affine::{Aff, List, Range, System};
use ch_poly::least_point;
use ch_timed::Identity;
use std::alloc::{AllocError, Global};

/// The identities of the first and the last element of a piece in the list.
pub fn ends(alloc: Global, space: &Space, number: u32) -> Result<(Identity, Identity), AllocError>
    requires { number < length (pieces space.now.list) }
    ensures first { IfOk result (λ both.
        first (identities (members space.now.list number)) ≡ Some both.0) }
    ensures last { IfOk result (λ both.
        last (identities (members space.now.list number)) ≡ Some both.1) }
{
    let all = space.pieces.as_slice();
    ends_of(alloc, &all[number as usize])
}

fn ends_of(alloc: Global, piece: &Piece) -> Result<(Identity, Identity), AllocError>
    requires whole { IsWhole piece.now }
    requires some { instances piece.now ≢ [] }
    requires near { All (λ e. All (IsAtMost (2 ^ 54)) e.identity.iters) (elements piece.now) }
    ensures first { IfOk result (λ both. first (identities (elements piece.now)) ≡ Some both.0) }
    ensures last { IfOk result (λ both. last (identities (elements piece.now)) ≡ Some both.1) }
{
    let least = least_instance(alloc, piece)?;
    let greatest = greatest_instance(alloc, piece)?;
    let first = identity_at(alloc, piece, least.as_slice())?;
    let last = identity_at(alloc, piece, greatest.as_slice())?;
    Ok((first, last))
}

fn least_instance(alloc: Global, piece: &Piece) -> Result<List<i64>, AllocError>
    requires whole { IsWhole piece.now }
    requires some { instances piece.now ≢ [] }
    ensures { IfOk result (λ xs. first (instances piece.now) ≡ Some xs) }
{
    let system = &piece.system;
    match least_point(alloc, system)? {
        Some(point) => List::from_slice(alloc, &point.as_slice()[..piece.levels as usize]),
        None => unreachable!(),
    }
}

fn greatest_instance(alloc: Global, piece: &Piece) -> Result<List<i64>, AllocError>
    requires whole { IsWhole piece.now }
    requires some { instances piece.now ≢ [] }
    ensures { IfOk result (λ xs. last (instances piece.now) ≡ Some xs) }
{
    let system = negated_system(alloc, &piece.system)?;
    match least_point(alloc, &system)? {
        Some(point) => opposite(alloc, &point.as_slice()[..piece.levels as usize]),
        None => unreachable!(),
    }
}

fn negated_system(alloc: Global, system: &System) -> Result<System, AllocError>
    ensures { IfOk result (λ other. other ≡ negated system.now) }
{
    let mut rows = List::with_capacity(alloc, system.rows.len())?;
    for row in system.rows.as_slice() {
        rows.push(negated_row(alloc, row)?)?;
    }
    let boxes = negated_ranges(alloc, system.boxes.as_slice())?;
    Ok(System {
        vars: system.vars,
        rows,
        boxes,
    })
}

fn negated_row(alloc: Global, row: &Aff) -> Result<Aff, AllocError>
    ensures { IfOk result (λ other. other ≡ negated_form row.now) }
{
    let coefs = opposite(alloc, row.coefs.as_slice())?;
    Ok(Aff {
        coefs,
        constant: row.constant,
    })
}

fn negated_ranges(alloc: Global, boxes: &[Range]) -> Result<List<Range>, AllocError>
    requires { All IsBox boxes.now }
    ensures { IfOk result (λ others. others ≡ map negated_range boxes.now) }
{
    let mut others = List::with_capacity(alloc, boxes.len())?;
    for range in boxes {
        others.push(Range {
            low: -range.high,
            high: -range.low,
        })?;
    }
    Ok(others)
}

/// The negative of each number.
fn opposite(alloc: Global, numbers: &[i64]) -> Result<List<i64>, AllocError>
    requires { All (IsAtMost (2 ^ 60)) numbers.now }
    ensures { IfOk result (λ others. others ≡ negatives numbers.now) }
{
    let mut others = List::with_capacity(alloc, numbers.len())?;
    for number in numbers {
        others.push(-*number)?;
    }
    Ok(others)
}

/// The identity of a piece's element at one of its instances.
pub(crate) fn identity_at(
    alloc: Global,
    piece: &Piece,
    instance: &[i64],
) -> Result<Identity, AllocError>
    requires whole { IsWhole piece.now }
    requires one { In instance.now (instances piece.now) }
    requires near { All (λ e. All (IsAtMost (2 ^ 54)) e.identity.iters) (elements piece.now) }
    ensures { IfOk result (λ identity. identity ≡ (element_at piece.now instance.now).identity) }
{
    piece.system.known();
    let mut iters = List::with_capacity(alloc, piece.origin.len())?;
    for form in piece.origin.as_slice() {
        iters.push(form.value(instance) as i64)?;
    }
    Ok(Identity {
        label: piece.label,
        iters,
    })
}
