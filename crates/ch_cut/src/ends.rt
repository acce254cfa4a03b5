//! The first and the last value of a loop.

ghost use Rattle.std.specs.Prelude.{◌≡◌, ◌≢◌, ◌≤◌, ◌^◌, ◌-◌, ◌++◌, ◌∷◌, [], pos, map, IfOk};
ghost use Rattle.ch_affine.specs.Affine.{IsAtMost, form};
ghost use Rattle.ch_cut.specs.Ends.{IsLeastIn, IsLeastOf, IsLesser};
ghost use Rattle.ch_space.specs.Built.{zeros};
ghost use Rattle.ch_space.specs.Keeps.{AreApart, IsWhole, places_of};
ghost use Rattle.ch_space.specs.Pieces.{instances};
ghost use Rattle.ch_timed.specs.Members.{In};

use ch_affine::{Aff, List};
use ch_moved::units::push_zeros;
use ch_poly::least_value;
use ch_space::{Piece, share};
use std::alloc::{AllocError, Global};

/// The form that is the factor times the value of the level, over so many variables.
fn multiple(alloc: Global, level: usize, factor: i64, variables: usize) -> Result<Aff, AllocError>
    requires some { 1 ≤ level }
    requires deep { level ≤ variables }
    requires few { variables ≤ 4096 }
    requires factor { IsAtMost 1 factor }
    ensures { IfOk result (λ f.
        f ≡ form (zeros (level - 1) ++ factor ∷ zeros (variables - level)) (pos 0)) }
{
    let mut coefs = List::new(alloc);
    push_zeros(&mut coefs, level - 1)?;
    coefs.push(factor)?;
    push_zeros(&mut coefs, variables - level)?;
    Ok(Aff { coefs, constant: 0 })
}

/// The least product of the factor and a value of the level in a piece.
fn least_in(alloc: Global, piece: &Piece, level: usize, factor: i64) -> Result<i64, AllocError>
    requires whole { IsWhole piece.now }
    requires instances { instances piece.now ≢ [] }
    requires some { 1 ≤ level }
    requires deep { level ≤ piece.now.levels }
    requires factor { IsAtMost 1 factor }
    ensures least { IfOk result (IsLeastIn piece.now level factor) }
    ensures near { IfOk result (IsAtMost (2 ^ 54)) }
{
    let form = multiple(alloc, level, factor, piece.system.vars as usize)?;
    match least_value(alloc, &piece.system, &form)? {
        Some(value) => Ok(value as i64),
        None => unreachable!(),
    }
}

/// The lesser of a number and the least product in the piece, if it shares the level with our
/// places.
fn lesser(
    alloc: Global,
    least: i64,
    ours: &[u32],
    piece: &Piece,
    level: usize,
    factor: i64,
) -> Result<i64, AllocError>
    requires whole { IsWhole piece.now }
    requires instances { instances piece.now ≢ [] }
    requires some { 1 ≤ level }
    requires factor { IsAtMost 1 factor }
    requires near { IsAtMost (2 ^ 54) least }
    ensures lesser { IfOk result (IsLesser (map pos ours.now) piece.now level factor least) }
    ensures near { IfOk result (IsAtMost (2 ^ 54)) }
{
    if !share(level, ours, piece.places.as_slice()) {
        return Ok(least);
    }
    let value = least_in(alloc, piece, level, factor)?;
    if least <= value {
        return Ok(least);
    }
    Ok(value)
}

/// The least product of the factor and a value of the level in the pieces that share the level with
/// one of them. A factor of 1 gives the first value of the loop, and -1 the negative of the last
/// one.
pub(crate) fn least(
    alloc: Global,
    pieces: &[Piece],
    piece: &Piece,
    level: usize,
    factor: i64,
) -> Result<i64, AllocError>
    requires apart { AreApart pieces.now }
    requires one { In piece.now pieces.now }
    requires some { 1 ≤ level }
    requires deep { level ≤ piece.now.levels }
    requires factor { IsAtMost 1 factor }
    ensures least { IfOk result (IsLeastOf pieces.now (places_of piece.now) level factor) }
    ensures near { IfOk result (IsAtMost (2 ^ 54)) }
{
    let ours = piece.places.as_slice();
    let mut least = least_in(alloc, piece, level, factor)?;
    for other in pieces {
        least = lesser(alloc, least, ours, other, level, factor)?;
    }
    Ok(least)
}
