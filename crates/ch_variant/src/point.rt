//! The point of a grid at which a recipe is built.

ghost use Rattle.std.specs.Prelude.{◌≡◌, length, IfOk, IsTrue};
ghost use Rattle.ch_grid.specs.Grid.{sizes};
ghost use Rattle.ch_grid.specs.Points.{is_point};
ghost use Rattle.ch_variant.specs.Points.{used_point};

use ch_affine::List;
use ch_constrain::nearest;
use ch_grid::Grid;
use ch_script::Recipe;
use std::alloc::{AllocError, Global};

/// The point at which a recipe is built for a point of a grid: the nearest one at whose values each
/// condition of the recipe holds, by the sum of the magnitudes of the index differences, and at a
/// tie the lexicographically least. It is the point itself where the conditions hold there, and
/// also where they hold at no point of the grid.
pub fn used_point(
    alloc: Global,
    recipe: &Recipe,
    grid: &Grid,
    point: &[u32],
) -> Result<List<u32>, AllocError>
    requires params { length grid.now.params ≡ length recipe.now.params }
    requires point { IsTrue (is_point (sizes grid.now.params) point.now) }
    ensures exact { IfOk result (λ used. used ≡ used_point recipe.now grid.now.params point.now) }
    ensures in_grid { IfOk result (λ used. IsTrue (is_point (sizes grid.now.params) used)) }
{
    let rows = recipe.requirements(alloc)?;
    match nearest(alloc, grid, rows.as_slice(), point)? {
        Some(used) => Ok(used),
        None => List::from_slice(alloc, point),
    }
}
