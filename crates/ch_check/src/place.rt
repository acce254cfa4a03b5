//! The values at which a recipe is checked.
ghost use Rattle.std.specs.Prelude.{◌≡◌, ◌^◌, IfOk, IsTrue, length};
ghost use Rattle.std.specs.List.{All};
ghost use Rattle.std.specs.Option.{ForSome};
ghost use Rattle.ch_affine.specs.Affine.{IsAtMost};
ghost use Rattle.ch_check.specs.Sessions.{fits, values_of};
ghost use Rattle.ch_constrain.specs.Nearest.{values};
ghost use Rattle.ch_grid.specs.Grid.{sizes};
ghost use Rattle.ch_grid.specs.Points.{is_point};
ghost use Rattle.ch_rank.specs.Moves.{centre};

use ch_affine::List;
use ch_constrain::values_at;
use ch_grid::Grid;
use ch_workload::SessionDecl;
use std::alloc::{AllocError, Global};

/// The centre of a grid, where a search begins.
fn centre(alloc: Global, grid: &Grid) -> Result<List<u32>, AllocError>
    ensures exact { IfOk result (λ point. point ≡ centre (sizes grid.now.params)) }
    ensures inside { IfOk result (λ point. IsTrue (is_point (sizes grid.now.params) point)) }
{
    let mut point = List::with_capacity(alloc, grid.params.len())?;
    for k in 0..grid.params.len() {
        point.push((grid.size_of(k as u32) - 1) / 2)?;
    }
    Ok(point)
}

/// The values at the centre of a grid.
fn central(alloc: Global, grid: &Grid) -> Result<List<i64>, AllocError>
    ensures exact { IfOk result (λ numbers.
        numbers ≡ values grid.now.params (centre (sizes grid.now.params))) }
    ensures long { IfOk result (λ numbers. length numbers ≡ length grid.now.params) }
    ensures small { IfOk result (λ numbers. All (IsAtMost (2 ^ 20)) numbers) }
{
    let point = centre(alloc, grid)?;
    values_at(alloc, grid, point.as_slice())
}

/// The given values, or else those at the centre of the session's grid.
pub(crate) fn values_of(
    alloc: Global,
    at: &Option<List<i64>>,
    session: &SessionDecl,
) -> Result<List<i64>, AllocError>
    requires fits { IsTrue (fits at.now session.now) }
    requires small { ForSome at.now (All (IsAtMost (2 ^ 20))) }
    ensures exact { IfOk result (λ numbers. numbers ≡ values_of at.now session.now.params) }
    ensures long { IfOk result (λ numbers. length numbers ≡ length session.now.params) }
    ensures small { IfOk result (λ numbers. All (IsAtMost (2 ^ 20)) numbers) }
{
    match at {
        Some(numbers) => List::from_slice(alloc, numbers.as_slice()),
        None => central(alloc, &session.grid),
    }
}
