//! The points of a grid: their values, whether rows hold there, how far apart they are, and which
//! one is next.

ghost use Rattle.std.specs.Prelude.{◌≡◌, ◌<◌, ◌≤◌, ◌+◌, ◌^◌, length};
ghost use Rattle.std.specs.Prelude.{slice_get, set, IfOk, IfSome, IsTrue};
ghost use Rattle.std.specs.List.{All, list_all};
ghost use Rattle.ch_affine.specs.Affine.{IsAtMost};
ghost use Rattle.ch_constrain.specs.Nearest.{distance, is_met, point_at, values};
ghost use Rattle.ch_grid.specs.Grid.{size, sizes, value_at};
ghost use Rattle.ch_grid.specs.Points.{count, is_point, number};

use ch_affine::{Aff, List};
use ch_grid::Grid;
use std::alloc::{AllocError, Global};

/// The point of a number, the last index counting fastest.
pub(crate) fn point_at(alloc: Global, grid: &Grid, number: u32) -> Result<List<u32>, AllocError>
    requires { number < count (sizes grid.now.params) }
    ensures { IfOk result (λ p. p ≡ point_at (sizes grid.now.params) number) }
{
    let mut point = List::with_capacity(alloc, grid.params.len())?;
    let mut weight = grid.points();
    let mut rest = number;
    for k in 0..grid.params.len() {
        weight /= grid.size_of(k as u32);
        point.push(rest / weight)?;
        rest %= weight;
    }
    Ok(point)
}

/// The value of each parameter at a point of a grid, which has an index for each of them. No value
/// has a magnitude above 2^20.
pub fn values_at(alloc: Global, grid: &Grid, point: &[u32]) -> Result<List<i64>, AllocError>
    requires { IsTrue (is_point (sizes grid.now.params) point.now) }
    ensures exact { IfOk result (λ v. v ≡ values grid.now.params point.now) }
    ensures count { IfOk result (λ v. length v ≡ length grid.now.params) }
    ensures small { IfOk result (λ v. All (IsAtMost (2 ^ 20)) v) }
{
    let mut values = List::with_capacity(alloc, point.len())?;
    for k in 0..point.len() {
        values.push(grid.value_of(k as u32, point[k]))?;
    }
    Ok(values)
}

/// Whether each row is at least 0 at these values.
pub(crate) fn all_met(rows: &[Aff], values: &[i64]) -> bool
    requires same { All (λ row. length row.coefs ≡ length values.now) rows.now }
    requires small { All (IsAtMost (2 ^ 54)) values.now }
    ensures { result ≡ list_all (is_met values.now) rows.now }
{
    for row in rows {
        if row.value(values) < 0 {
            return false;
        }
    }
    true
}

/// The sum of the magnitudes of the index differences.
pub(crate) fn distance(point: &[u32], other: &[u32]) -> u64
    requires same { length point.now ≡ length other.now }
    requires few { length point.now ≤ 6 }
    ensures { result ≡ distance point.now other.now }
{
    let mut sum: u64 = 0;
    for k in 0..point.len() {
        sum += u64::from(point[k].abs_diff(other[k]));
    }
    sum
}

/// Gives one parameter the value at an index.
fn set_index(grid: &Grid, k: usize, index: u32, point: &mut [u32], numbers: &mut [i64])
    requires param { k < length grid.now.params }
    requires index { IfSome (slice_get grid.now.params k) (λ param. index < size param) }
    requires long { length point.old ≡ length grid.now.params }
    requires numbers_long { length numbers.old ≡ length grid.now.params }
    ensures point { point.new ≡ set point.old k index }
    ensures value { IfSome (slice_get grid.now.params k)
        (λ param. numbers.new ≡ set numbers.old k (value_at param index)) }
{
    point[k] = index;
    numbers[k] = grid.value_of(k as u32, index);
}

/// Goes on to the next point, the last index counting fastest, and to its values. The last point is
/// followed by the first.
pub(crate) fn advance(grid: &Grid, point: &mut [u32], numbers: &mut [i64])
    requires point { IsTrue (is_point (sizes grid.now.params) point.old) }
    requires numbers { numbers.old ≡ values grid.now.params point.old }
    ensures point { IsTrue (is_point (sizes grid.now.params) point.new) }
    ensures numbers { numbers.new ≡ values grid.now.params point.new }
    ensures next { number (sizes grid.now.params) point.old + 1 < count (sizes grid.now.params)
        → number (sizes grid.now.params) point.new ≡ number (sizes grid.now.params) point.old + 1 }
{
    for k in (0..point.len()).rev() {
        let next = point[k] + 1;
        if next < grid.size_of(k as u32) {
            set_index(grid, k, next, point, numbers);
            return;
        }
        set_index(grid, k, 0, point, numbers);
    }
}
