//! A grid around given values.

ghost use Rattle.std.specs.Prelude.{◌≤◌, length, IsTrue};
ghost use Rattle.ch_grid.specs.Grid.{sizes};
ghost use Rattle.ch_grid.specs.Points.{is_point};

use ch_affine::List;
use ch_grid::{Grid, Param};
use std::alloc::{AllocError, Global};

/// The most parameters of a grid.
const MOST_PARAMS: usize = 6;

/// A grid with three values for each parameter, of which these are the ones in the middle; None
/// where a magnitude is too large.
pub(crate) fn grid_around(alloc: Global, values: &[i64]) -> Result<Option<Grid>, AllocError> {
    let mut params = List::new(alloc);
    for value in values {
        params.push(Param {
            low: value.saturating_sub(1),
            high: value.saturating_add(1),
            step: 1,
        })?;
    }
    if params.len() > MOST_PARAMS {
        return Ok(None);
    }
    Ok(Grid::of(params).ok())
}

/// The point in the middle of such a grid.
pub(crate) fn middle(alloc: Global, params: usize) -> Result<List<u32>, AllocError> {
    let mut point = List::new(alloc);
    for _ in 0..params {
        point.push(1)?;
    }
    Ok(point)
}

/// Whether the point is one of the grid.
pub(crate) fn is_in(grid: &Grid, point: &[u32]) -> bool
    ensures { IsTrue result → IsTrue (is_point (sizes grid.now.params) point.now) }
{
    if point.len() != grid.params.len() {
        return false;
    }
    for k in 0..point.len() {
        if point[k] >= grid.size_of(k as u32) {
            return false;
        }
    }
    true
}
