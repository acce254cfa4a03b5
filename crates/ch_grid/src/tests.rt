ghost use Rattle.std.specs.Prelude.{◌≡◌, ◌≤◌, IfOk, length};

use super::*;
use ch_affine::List;
use std::alloc::{AllocError, Global};
use std::test::Fail;

const MOST: i64 = 1_048_576;

fn param(low: i64, high: i64, step: i64) -> Param {
    Param { low, high, step }
}

fn params(alloc: Global, all: [Param; 3]) -> Result<List<Param>, AllocError>
    ensures { IfOk result (λ list. length list ≤ 6) }
{
    List::from_slice(alloc, &all)
}

#[test]
fn limits_of_parameters_and_points(rt: HostRuntime) -> Result<(), Fail> {
    let one = param(0, 0, 1);
    let cases = [
        ([one, param(-MOST, MOST, MOST), one], None),
        ([one, param(5, 9, 100), one], None),
        ([param(1, 256, 1), one, param(0, 510, 2)], None),
        (
            [param(0, 256, 1), one, param(0, 510, 2)],
            Some(GridError::TooManyPoints),
        ),
        (
            [param(0, MOST, 1), param(0, MOST, 1), param(0, MOST, 1)],
            Some(GridError::TooManyPoints),
        ),
        (
            [param(0, MOST, 1), one, param(3, 2, 1)],
            Some(GridError::BadParam { at: 2 }),
        ),
        (
            [one, param(0, 1, 0), param(3, 2, 1)],
            Some(GridError::BadParam { at: 1 }),
        ),
        (
            [param(0, 1, -1), one, one],
            Some(GridError::BadParam { at: 0 }),
        ),
        (
            [one, one, param(-MOST - 1, 0, 1)],
            Some(GridError::BadParam { at: 2 }),
        ),
        (
            [one, param(0, MOST + 1, 1), one],
            Some(GridError::BadParam { at: 1 }),
        ),
        (
            [one, param(0, 1, MOST + 1), one],
            Some(GridError::BadParam { at: 1 }),
        ),
    ];
    for (all, fault) in cases {
        assert_eq!(rt; Grid::of(params(rt.alloc(), all)?).err(), fault, "{all:?}");
    }
    Ok(())
}

#[test]
fn values_and_nearest_indices(rt: HostRuntime) -> Result<(), Fail> {
    let Ok(grid) = Grid::of(params(
        rt.alloc(),
        [param(-3, 10, 5), param(5, 9, 100), param(0, 6, 2)],
    )?) else {
        assert!(rt; false, "three good parameters");
        return Ok(());
    };
    assert_eq!(rt; grid.params.len(), 3);
    assert_eq!(rt;
        (grid.size_of(0), grid.size_of(1), grid.size_of(2)),
        (3, 1, 4)
    );
    assert_eq!(rt; grid.points(), 12);
    for (x, index) in [
        (i64::MIN, 0),
        (-1, 0),
        (0, 0),
        (1, 1),
        (2, 2),
        (3, 2),
        (i64::MAX, 2),
    ] {
        assert_eq!(rt; grid.project(0, x), index, "{x}");
    }
    for (index, value) in [(0, -3), (1, 2), (2, 7)] {
        assert!(rt; index < grid.size_of(0));
        assert_eq!(rt; grid.value_of(0, index), value, "{index}");
    }
    Ok(())
}
