//! What is told of a recipe at values of its parameters.

ghost use Rattle.std.specs.Prelude.{◌≡◌, ◌^◌, length, IsTrue};
ghost use Rattle.std.specs.List.{All};
ghost use Rattle.ch_affine.specs.Affine.{IsAtMost};
ghost use Rattle.ch_nest.specs.Sound.{is_sound};
ghost use Rattle.ch_variant.specs.Applied.{IsAnswer};
ghost use Rattle.ch_variant.specs.Judgements.{judged, sizes_of};

use crate::applying::apply;
use crate::error::ApplyError;
use ch_nest::Nest;
use ch_script::Recipe;
use ch_space::{count, pieces};
use std::alloc::Global;

/// What a legal recipe makes of a nest: so many pieces, which are the sets of statement instances
/// with the same static places, and so many instances in all.
#[derive(Clone, Copy, Debug, PartialEq, Eq)]
pub struct Judgement {
    pub pieces: u32,
    pub instances: u64,
}

/// The sizes of the program that a recipe makes of a sound nest at these values of its parameters,
/// or its refusal, as `apply` answers it.
pub fn judge(
    alloc: Global,
    nest: &Nest,
    recipe: &Recipe,
    values: &[i64],
) -> Result<Judgement, ApplyError>
    requires sound { IsTrue (is_sound nest.now) }
    requires params { length values.now ≡ length recipe.now.params }
    requires small { All (IsAtMost (2 ^ 20)) values.now }
    ensures { IsAnswer result (judged sizes_of nest.now recipe.now.commands values.now) }
{
    let space = apply(alloc, nest, recipe, values)?;
    Ok(Judgement {
        pieces: pieces(&space),
        instances: count(&space),
    })
}
