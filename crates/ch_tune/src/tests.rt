//! A search in which each point costs the same.

ghost use Rattle.std.specs.Prelude.{ℕ, List, Ok};

use crate::{Judge, tune};
use ch_affine::{List, Text};
use ch_grid::{Grid, Param};
use ch_report::{Found, Tuning, put_session};
use std::alloc::{AllocError, Global};
use std::test::Fail;

#[derive(Drop)]
struct Flat {
    grid: Grid,
}

impl Judge for Flat {
    ghost params = { λ f. f.grid.params };

    ghost judged = { λ f point. Ok 13 };

    fn grid(&self) -> &Grid {
        &self.grid
    }

    fn judge(&self, _alloc: Global, _point: &[u32]) -> Result<Found, AllocError> {
        Ok(Found::Cost {
            client: 0,
            call: 0,
            cost: 13,
        })
    }
}

#[test]
fn where_all_points_cost_the_same_the_centre_stays_best(rt: HostRuntime) -> Result<(), Fail> {
    let alloc = rt.alloc();
    let params = List::from_slice(
        alloc,
        &[Param {
            low: 1,
            high: 3,
            step: 1,
        }],
    )?;
    let Ok(grid) = Grid::of(params) else {
        return Err("a small grid".into());
    };
    let flat = Flat { grid };
    let part = tune(alloc, &flat, 1)?;
    let name = Text::of(alloc, b"s")?;
    let tuning = Tuning {
        name: &name,
        grid: &flat.grid,
        conditions: &[],
        arrays: &[],
    };
    let mut text = Text::new(alloc);
    put_session(alloc, &mut text, &tuning, &part)?;
    assert_eq!(rt;
        text.as_bytes(),
        b"session s entries 3 steps 2 phase Converged\n\
entry 1 trial 0 at (2) cost 13\n\
entry 2 trial 1 at (3) cost 13\n\
entry 3 trial 2 at (1) cost 13\n\
rank 1 place 0 at (2) cost 13\n\
rank 2 place 1 at (2) cost 13\n\
rank 3 place 2 at (2) cost 13\n\
best at (2) cost 13\n"
            .as_slice()
    );
    Ok(())
}
