//! The space of the pieces that a command leaves.

ghost use Rattle.std.specs.Prelude.{◌≡◌, ◌+◌, IfOk};
ghost use Rattle.ch_space.specs.Keeps.{IsSpace};
ghost use Rattle.ch_space.specs.Pieces.{listed};
ghost use Rattle.ch_timed.specs.Closed.{closed_up};

use ch_affine::List;
use ch_space::copies::copied_lists;
use ch_space::{Piece, Space, close_up};
use std::alloc::{AllocError, Global};

/// The space of these pieces one command after another space, its places closed up.
pub fn closed_space(
    alloc: Global,
    before: &Space,
    pieces: List<Piece>,
    counts: List<u64>,
    weight: u64,
) -> Result<Space, AllocError>
    requires { IsSpace before.now.arrays pieces counts before.now.temps weight (before.now.commands + 1) }
    ensures list { IfOk result (λ new. new.list ≡ closed_up (listed pieces)) }
    ensures arrays { IfOk result (λ new. new.arrays ≡ before.now.arrays) }
    ensures temps { IfOk result (λ new. new.temps ≡ before.now.temps) }
    ensures weight { IfOk result (λ new. new.weight ≡ weight) }
    ensures commands { IfOk result (λ new. new.commands ≡ before.now.commands + 1) }
{
    let mut space = Space {
        arrays: before.arrays,
        pieces,
        counts,
        temps: copied_lists(alloc, before.temps.as_slice())?,
        weight,
        commands: before.commands + 1,
    };
    close_up(alloc, &mut space)?;
    Ok(space)
}
