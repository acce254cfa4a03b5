ghost use Rattle.std.specs.Prelude.{◌≡◌, [], length, IsTrue, IfOk};
ghost use Rattle.ch_space.specs.Judged.{judgement, Judges};
ghost use Rattle.ch_nest.specs.Sound.{is_sound};
ghost use Rattle.ch_timed.specs.Start.{start};

use crate::error::SpaceError;
use crate::judge::judged;
use crate::nest_pieces::{Found, find_items};
use crate::space::Space;
use ch_affine::List;
use ch_nest::Nest;
use std::alloc::{AllocError, Global};

/// The space of a nest that can be run.
pub fn space_of(alloc: Global, nest: &Nest) -> Result<Space, AllocError>
    requires sound { IsTrue (is_sound nest.now) }
    ensures { IfOk result (λ space. space ≡ record {
      list = start nest.now;
      arrays = length nest.now.arrays;
      temps = [];
      weight = 1;
      commands = 0;
    }) }
{
    let mut found = Found {
        pieces: List::new(alloc),
        counts: List::new(alloc),
    };
    find_items(alloc, nest.items.as_slice(), &[], &[], 0, &mut found)?;
    let Found { pieces, counts } = found;
    Ok(Space {
        arrays: nest.arrays.len() as u32,
        pieces,
        counts,
        temps: List::new(alloc),
        weight: 1,
        commands: 0,
    })
}

/// The space of a nest: its timed list, with a piece for each statement that has an instance, and
/// no buffers. The levels of a piece are the values of its loops; a loop with a step above 1 gives
/// its system a hidden variable, which counts the steps, and a condition gives it a row. A nest
/// that takes more than 1,048,576 turns and instances is refused; otherwise one with an access that
/// leaves its array is, for the first such instance in program order and its first such access.
///
/// The nest is walked a few times over, without memory for the walk.
pub fn of_nest(alloc: Global, nest: &Nest) -> Result<Space, SpaceError>
    ensures judged { Judges result (judgement nest.now) }
    ensures list { IfOk result (λ space. space.list ≡ start nest.now) }
    ensures arrays { IfOk result (λ space. space.arrays ≡ length nest.now.arrays) }
    ensures temps { IfOk result (λ space. space.temps ≡ []) }
    ensures weight { IfOk result (λ space. space.weight ≡ 1) }
    ensures commands { IfOk result (λ space. space.commands ≡ 0) }
{
    judged(alloc, nest)?;
    let space = space_of(alloc, nest)?;
    Ok(space)
}
