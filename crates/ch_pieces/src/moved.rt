//! The space that a command leaves.

ghost use Rattle.std.specs.Prelude.{◌≡◌, ◌+◌, ◌<◌, ◌≤◌, ◌^◌, length, IfOk};
ghost use Rattle.ch_moved.specs.Causes.{Answers, too_many};
ghost use Rattle.ch_moved.specs.Moved.{moved};
ghost use Rattle.ch_order.specs.Legal.{AreAmong};
ghost use Rattle.ch_pieces.specs.Candidates.{AreCandidates, AreSomeCandidates};
ghost use Rattle.ch_space.specs.Keeps.{most_weight};
ghost use Rattle.ch_timed.specs.declared.element.Element.{Element};

use crate::assemble::assembled;
use crate::candidate::{Assembled, Candidate};
use ch_affine::List;
use ch_nest::Shape;
use ch_space::copies::copied_lists;
use ch_space::{ShapeError, Space};
use std::alloc::{AllocError, Global};

/// The most pieces of a space.
const MOST_PIECES: usize = 256;

/// The space one command after another one, of the candidates that have instances: they stand in
/// the order of their places, which are closed up. C7 where they are more than 256.
pub fn moved_space(
    alloc: Global,
    before: &Space,
    candidates: List<Candidate>,
    weight: u64,
) -> Result<Space, ShapeError>
    requires commands { before.now.commands < 32 }
    requires some { 1 ≤ weight }
    requires light { weight ≤ most_weight }
    requires number { length candidates ≤ 2 ^ 20 }
    requires are { AreSomeCandidates before.now.list weight (before.now.commands + 1) candidates }
    ensures cause { (change : Element → Element)
        → AreCandidates change before.now.list weight (before.now.commands + 1) candidates
        → Answers result (too_many change before.now.list) }
    ensures list { (change : Element → Element)
        → AreCandidates change before.now.list weight (before.now.commands + 1) candidates
        → IfOk result (λ new. new.list ≡ moved change before.now.list) }
    ensures kept { IfOk result (λ new. AreAmong before.now.list new.list) }
    ensures no_others { IfOk result (λ new. AreAmong new.list before.now.list) }
    ensures arrays { IfOk result (λ new. new.arrays ≡ before.now.arrays) }
    ensures temps { IfOk result (λ new. new.temps ≡ before.now.temps) }
    ensures weight { IfOk result (λ new. new.weight ≡ weight) }
    ensures commands { IfOk result (λ new. new.commands ≡ before.now.commands + 1) }
{
    let temps = copied_lists(alloc, before.temps.as_slice())?;
    let assembled = assembled(alloc, candidates)?;
    if assembled.pieces.len() > MOST_PIECES {
        return Err(ShapeError::Shape(Shape {
            code: 7,
            number: assembled.pieces.len() as i128,
        }));
    }
    let Assembled { pieces, counts } = assembled;
    Ok(Space {
        arrays: before.arrays,
        pieces,
        counts,
        temps,
        weight,
        commands: before.commands + 1,
    })
}
