//! The nearest points of small grids, with answers by hand, and of the largest ones.

ghost use Rattle.std.specs.Prelude.{◌≡◌, ◌≤◌, length, IfOk, IfSome};

use crate::points::point_at;
use crate::{nearest, nearest_is_least};
use ch_affine::{Aff, List};
use ch_grid::{Grid, Param};
use std::alloc::{AllocError, Global};
use std::test::Fail;

fn param(high: i64) -> Param {
    Param {
        low: 0,
        high,
        step: 1,
    }
}

fn square(alloc: Global, high: i64) -> Result<Option<Grid>, AllocError>
    ensures { IfOk result (λ g. IfSome g (λ grid. length grid.params ≡ 2)) }
{
    let params = List::from_slice(alloc, &[param(high), param(high)])?;
    Ok(Grid::of(params).ok())
}

/// Six parameters with 65,536 points, the last of which is (7, 7, 7, 7, 3, 3).
fn six_parameters(alloc: Global) -> Result<Option<Grid>, AllocError>
    ensures { IfOk result (λ g. IfSome g (λ grid. length grid.params ≡ 6)) }
{
    let (long, short) = (param(7), param(3));
    let params = List::from_slice(alloc, &[long, long, long, long, short, short])?;
    Ok(Grid::of(params).ok())
}

/// The row of these coefficients.
fn row(alloc: Global, coefs: &[i64], constant: i64) -> Result<Option<Aff>, AllocError>
    ensures { IfOk result (λ r. IfSome r (λ form. length form.coefs ≡ length coefs.now)) }
{
    let coefs = List::from_slice(alloc, coefs)?;
    Ok(Aff::new(coefs, constant))
}

/// The point nearest to these indices.
fn answer(
    alloc: Global,
    row: Aff,
    high: i64,
    t: u32,
    u: u32,
) -> Result<Option<List<u32>>, AllocError>
    requires { length row.coefs ≡ 2 }
{
    let Some(grid) = square(alloc, high)? else {
        return Ok(None);
    };
    if t >= grid.size_of(0) || u >= grid.size_of(1) {
        return Ok(None);
    }
    nearest(alloc, &grid, &[row], &[t, u])
}

#[test]
fn nearest_points_by_hand(rt: HostRuntime) -> Result<(), Fail> {
    nearest_is_least();
    let alloc = rt.alloc();
    let cases = [
        (-6, 4, 1, 1, Some((2, 4))),
        (-6, 4, 4, 4, Some((4, 4))),
        (-6, 4, 3, 3, Some((3, 3))),
        (-9, 4, 1, 1, None),
        (-510, 255, 0, 0, Some((255, 255))),
        (-511, 255, 255, 0, None),
    ];
    for (constant, high, t, u, wanted) in cases {
        let Some(row) = row(alloc, &[1, 1], constant)? else {
            continue;
        };
        let found = answer(alloc, row, high, t, u)?;
        let shown = match found {
            None => None,
            Some(point) => match point.as_slice() {
                [a, b] => Some((*a, *b)),
                _ => None,
            },
        };
        assert!(rt; shown == wanted);
    }
    Ok(())
}

/// The point nearest to the first one.
fn from_the_first(alloc: Global, grid: &Grid, row: Aff) -> Result<Option<List<u32>>, AllocError>
    requires { length row.coefs ≡ length grid.now.params }
{
    let first = point_at(alloc, grid, 0)?;
    nearest(alloc, grid, &[row], first.as_slice())
}

#[test]
fn the_last_of_the_most_points(rt: HostRuntime) -> Result<(), Fail> {
    let alloc = rt.alloc();
    let (Some(grid), Some(row)) = (
        six_parameters(alloc)?,
        row(alloc, &[1, 1, 1, 1, 1, 1], -34)?,
    ) else {
        return Ok(());
    };
    let found = from_the_first(alloc, &grid, row)?;
    assert!(rt; found.is_some_and(|point| point.as_slice() == [7, 7, 7, 7, 3, 3].as_slice()));
    Ok(())
}
