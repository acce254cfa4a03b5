//! The space in which a loop is cut by a form.

ghost use Rattle.std.specs.Prelude.{◌≡◌, ◌+◌, ◌<◌, ◌≤◌, ◌≤ℤ◌, ◌^◌};
ghost use Rattle.std.specs.Prelude.{None, [], ◌∷◌, pos, length, IfOk};
ghost use Rattle.ch_cut.specs.Cut.{cuts};
ghost use Rattle.ch_cut.specs.Forms.{IsModest, holds_at};
ghost use Rattle.ch_moved.specs.Causes.{Answers, no_level, no_piece, too_many};
ghost use Rattle.ch_moved.specs.Moved.{moved};
ghost use Rattle.ch_order.specs.Legal.{AreAmong};
ghost use Rattle.ch_pieces.specs.Candidates.{AreCandidates};

use crate::parts::all_parts;
use ch_affine::{Aff, List};
use ch_pieces::{Candidate, moved_space};
use ch_space::{ShapeError, Space};
use std::alloc::{AllocError, Global};

/// The candidates for the pieces that a cut loop leaves.
fn candidates(
    alloc: Global,
    space: &Space,
    number: i64,
    level: i64,
    form: &Aff,
) -> Result<List<Candidate>, AllocError>
    requires few { space.now.commands < 32 }
    requires piece { no_piece space.now.list (number ∷ []) ≡ None }
    requires level { no_level space.now.list (number ∷ []) level ≡ None }
    requires short { pos (length form.now.coefs) ≤ℤ level }
    requires modest { IsModest form.now }
    ensures are { IfOk result (AreCandidates (cuts space.now.list number level (holds_at form.now)) space.now.list
        space.now.weight (space.now.commands + 1)) }
    ensures few { IfOk result (λ cs. length cs ≤ 2 ^ 20) }
{
    let pieces = space.pieces.as_slice();
    let ours = pieces[number as usize].places.as_slice();
    let counts = space.counts.as_slice();
    all_parts(alloc, pieces, counts, ours, level as usize, form)
}

/// The space in which the loop of the level around the piece is cut: the turns at which the form is
/// at least 0 come first.
pub(crate) fn cut(
    alloc: Global,
    space: &Space,
    number: i64,
    level: i64,
    form: &Aff,
) -> Result<Space, ShapeError>
    requires few { space.now.commands < 32 }
    requires piece { no_piece space.now.list (number ∷ []) ≡ None }
    requires level { no_level space.now.list (number ∷ []) level ≡ None }
    requires short { pos (length form.now.coefs) ≤ℤ level }
    requires modest { IsModest form.now }
    ensures cause { Answers result (too_many (cuts space.now.list number level (holds_at form.now)) space.now.list) }
    ensures list { IfOk result (λ new. new.list
        ≡ moved (cuts space.now.list number level (holds_at form.now)) space.now.list) }
    ensures kept { IfOk result (λ new. AreAmong space.now.list new.list) }
    ensures no_others { IfOk result (λ new. AreAmong new.list space.now.list) }
    ensures arrays { IfOk result (λ new. new.arrays ≡ space.now.arrays) }
    ensures temps { IfOk result (λ new. new.temps ≡ space.now.temps) }
    ensures weight { IfOk result (λ new. new.weight ≡ space.now.weight) }
    ensures commands { IfOk result (λ new. new.commands ≡ space.now.commands + 1) }
{
    let candidates = candidates(alloc, space, number, level, form)?;
    moved_space(alloc, space, candidates, space.weight)
}
