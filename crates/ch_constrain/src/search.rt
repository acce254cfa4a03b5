//! The search for the nearest admissible point.

ghost use Rattle.std.specs.Prelude.{◌≡◌, ◌≤◌, ◌^◌, ◌&&◌, ℕ, List, length, if◌then◌else◌};
ghost use Rattle.std.specs.Prelude.{IfOk, IfSome, IsTrue, MatchOption, Some, false};
ghost use Rattle.std.specs.List.{All, list_all};
ghost use Rattle.ch_affine.specs.Affine.{IsAtMost};
ghost use Rattle.ch_constrain.specs.Nearest.{IsNearest, is_admissible, is_met, nearest, values};
ghost use Rattle.ch_constrain.specs.Scanned.{Finds, is_before};
ghost use Rattle.ch_grid.specs.Grid.{sizes};
ghost use Rattle.ch_grid.specs.Points.{is_point, number};

use crate::points::{advance, all_met, distance, point_at, values_at};
use ch_affine::{Aff, List};
use ch_grid::Grid;
use std::alloc::{AllocError, Global};

/// A point by its number, and how far it is from the point that is asked about.
#[derive(Clone, Copy, Debug, PartialEq, Eq)]
pub(crate) struct Found {
    pub(crate) number: u32,
    pub(crate) distance: u64,
}

/// Whether it is nearer than the best one so far.
fn is_nearer(found: Found, best: Option<Found>) -> bool
    ensures { result ≡ is_before found best }
{
    match best {
        None => true,
        Some(best) => found.distance < best.distance,
    }
}

/// The better one of the best point so far and a point with these values.
fn better(best: Option<Found>, found: Found, rows: &[Aff], values: &[i64]) -> Option<Found>
    requires same { All (λ row. length row.coefs ≡ length values.now) rows.now }
    requires small { All (IsAtMost (2 ^ 54)) values.now }
    ensures { result ≡ (if list_all (is_met values.now) rows.now && is_before found best then Some found else best) }
{
    // Far points are told by their distance alone, before the rows are looked at.
    if is_nearer(found, best) && all_met(rows, values) {
        Some(found)
    } else {
        best
    }
}

/// The first one of the nearest admissible points. `other` and `numbers` are those of the first
/// point when the scan begins.
fn scan(
    grid: &Grid,
    rows: &[Aff],
    point: &[u32],
    other: &mut [u32],
    numbers: &mut [i64],
) -> Option<Found>
    requires rows { All (λ row. length row.coefs ≡ length grid.now.params) rows.now }
    requires point { IsTrue (is_point (sizes grid.now.params) point.now) }
    requires other { IsTrue (is_point (sizes grid.now.params) other.old) }
    requires first { number (sizes grid.now.params) other.old ≡ 0 }
    requires numbers { numbers.old ≡ values grid.now.params other.old }
    ensures { Finds grid.now.params point.now result
        (nearest grid.now.params rows.now point.now) }
{
    let mut best = None;
    for number in 0..grid.points() {
        let distance = distance(point, other);
        best = better(best, Found { number, distance }, rows, numbers);
        advance(grid, other, numbers);
    }
    best
}

/// The first one of the nearest admissible points of the whole grid.
fn nearest_found(
    alloc: Global,
    grid: &Grid,
    rows: &[Aff],
    point: &[u32],
) -> Result<Option<Found>, AllocError>
    requires rows { All (λ row. length row.coefs ≡ length grid.now.params) rows.now }
    requires point { IsTrue (is_point (sizes grid.now.params) point.now) }
    ensures { IfOk result (λ found. Finds grid.now.params point.now found
        (nearest grid.now.params rows.now point.now)) }
{
    let mut other = point_at(alloc, grid, 0)?;
    let mut values = values_at(alloc, grid, other.as_slice())?;
    let indices = other.as_mut_slice();
    let numbers = values.as_mut_slice();
    Ok(scan(grid, rows, point, indices, numbers))
}

/// Whether a point of the grid is admissible: whether each row, over the parameters' values, is at
/// least 0 there.
pub fn is_admissible(
    alloc: Global,
    grid: &Grid,
    rows: &[Aff],
    point: &[u32],
) -> Result<bool, AllocError>
    requires rows { All (λ row. length row.coefs ≡ length grid.now.params) rows.now }
    requires point { IsTrue (is_point (sizes grid.now.params) point.now) }
    ensures { IfOk result (λ t. t ≡ is_admissible grid.now.params rows.now point.now) }
{
    let values = values_at(alloc, grid, point)?;
    Ok(all_met(rows, values.as_slice()))
}

/// The admissible point of the grid that is nearest to a point.
///
/// A point has one index for each parameter. It is admissible where each row, over the parameters'
/// values, is at least 0. The nearest one has the least sum of the magnitudes of the index
/// differences, and at a tie it is the lexicographically least; so an admissible point is its own
/// nearest one. None exactly where no point of the grid is admissible; `Err` where memory runs out.
/// An admissible point is answered at once, otherwise each point of the grid is looked at.
pub fn nearest(
    alloc: Global,
    grid: &Grid,
    rows: &[Aff],
    point: &[u32],
) -> Result<Option<List<u32>>, AllocError>
    requires rows { All (λ row. length row.coefs ≡ length grid.now.params) rows.now }
    requires point { IsTrue (is_point (sizes grid.now.params) point.now) }
    ensures value { IfOk result (λ r. r ≡ nearest grid.now.params rows.now point.now) }
    ensures least { IfOk result (λ r. MatchOption r
        ((other : List ℕ) → IsTrue (is_point (sizes grid.now.params) other)
        → is_admissible grid.now.params rows.now other ≡ false)
        (λ best. IsNearest grid.now.params rows.now point.now best)) }
{
    if is_admissible(alloc, grid, rows, point)? {
        return Ok(Some(List::from_slice(alloc, point)?));
    }
    match nearest_found(alloc, grid, rows, point)? {
        None => Ok(None),
        Some(found) => Ok(Some(point_at(alloc, grid, found.number)?)),
    }
}
