//! Candidate pieces put in order, without those that have no instances, and their places closed up.

ghost use Rattle.std.specs.Prelude.{◌≡◌, ◌≢◌, ◌≤◌, ◌<◌, ◌^◌, length, map, IfOk};
ghost use Rattle.std.specs.List.{All, filter};
ghost use Rattle.ch_space.specs.Keeps.{IsWhole, places_of};
ghost use Rattle.ch_space.specs.Pieces.{instances};
ghost use Rattle.ch_pieces.specs.Assembled.{IsAssembled, has_instance, wide};
ghost use Rattle.ch_pieces.specs.Candidates.{IsKnown};
ghost use Rattle.ch_timed.specs.Members.{Pairwise};

use crate::candidate::{Assembled, Candidate};
use crate::closing::{closed_places, place_all};
use crate::parts::{Part, parts_in_order};
use ch_affine::List;
use std::alloc::{AllocError, Global};

/// The candidates that have instances as pieces in the order of their places, which are closed up.
pub fn assembled(alloc: Global, candidates: List<Candidate>) -> Result<Assembled, AllocError>
    requires whole { All (λ c. IsWhole (wide c)) candidates }
    requires few { All (λ c. length (instances c.piece) < 2 ^ 64) candidates }
    requires known { All IsKnown candidates }
    requires differ { Pairwise (λ q r.
        places_of q ≢ places_of r) (filter has_instance (map wide candidates)) }
    requires number { length candidates ≤ 2 ^ 20 }
    ensures { IfOk result (λ r. IsAssembled candidates r.pieces r.counts) }
{
    let parts = parts_in_order(alloc, candidates)?;
    let closed = closed_places(alloc, parts.as_slice())?;
    let mut assembled = split(alloc, parts)?;
    place_all(assembled.pieces.as_mut_slice(), closed);
    Ok(assembled)
}

/// The pieces of the parts, and their counts.
fn split(alloc: Global, parts: Vec<Part>) -> Result<Assembled, AllocError>
    ensures pieces { IfOk result (λ r. r.pieces ≡ map (λ p. p.piece) parts.items) }
    ensures counts { IfOk result (λ r. r.counts ≡ map (λ p. p.count) parts.items) }
{
    let mut pieces = List::with_capacity(alloc, parts.len())?;
    let mut counts = List::with_capacity(alloc, parts.len())?;
    for part in parts {
        let Part { piece, count, .. } = part;
        pieces.push(piece)?;
        counts.push(count)?;
    }
    Ok(Assembled { pieces, counts })
}
