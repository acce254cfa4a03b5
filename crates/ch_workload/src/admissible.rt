//! Whether some point of a grid meets the conditions between its parameters.
ghost use Rattle.std.specs.Prelude.{◌≡◌, length, IfOk, IsTrue};
ghost use Rattle.std.specs.List.{list_all};
ghost use Rattle.ch_script.specs.Recipes.{condition_fits};
ghost use Rattle.ch_script.specs.declared.recipe.Purpose.TheVariants.{Require};
ghost use Rattle.ch_workload.specs.Admissible.{first_point, has_admissible};

use ch_affine::List;
use ch_constrain::nearest;
use ch_grid::Grid;
use ch_script::{Cond, requirements_of};
use std::alloc::{AllocError, Global};

/// The point with the low end of each range.
fn first_point(alloc: Global, grid: &Grid) -> Result<List<u32>, AllocError>
    ensures { IfOk result (λ point. point ≡ first_point grid.now.params) }
{
    let zeros = vec![in alloc; 0u32; grid.params.len()]?;
    Ok(List::from_vec(zeros))
}

/// Whether some point of the grid meets all conditions between its parameters.
#[tactic(auto, unfolding(crate::specs::Admissible::has_admissible), using(crate::proofs::Admitted::first_inside, ch_constrain::proofs::Coordinates::few_params))]
pub(crate) fn has_admissible(
    alloc: Global,
    grid: &Grid,
    conditions: &[Cond],
) -> Result<bool, AllocError>
    requires fit { IsTrue (list_all (condition_fits Require (length grid.now.params)) conditions.now) }
    ensures { IfOk result (λ found. found ≡ has_admissible conditions.now grid.now.params) }
{
    let rows = requirements_of(alloc, conditions, grid.params.len() as u32)?;
    let first = first_point(alloc, grid)?;
    let found = nearest(alloc, grid, rows.as_slice(), first.as_slice())?;
    Ok(found.is_some())
}
