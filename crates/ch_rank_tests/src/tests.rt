use ch_affine::List;
use ch_grid::{Grid, Param};
use ch_rank::*;
use std::alloc::{AllocError, Global};
use std::process::Abort;
use std::test::Fail;

/// What each point of a grid comes to, by its indices.
#[derive(Clone, Copy, Debug)]
enum Costs {
    Same(u64),
    Refused,
    /// A product of n rows and n columns, with tiles of one more than the indices.
    Tiles(u64),
    /// The distance from an index of the first parameter, in whole steps of so many; points from a
    /// limit on are refused.
    Valley {
        bottom: u32,
        coarse: u32,
        limit: u32,
    },
}

impl Costs {
    fn of(self, point: &[u32]) -> Outcome {
        match self {
            Costs::Same(cost) => Outcome::Cost(cost),
            Costs::Refused => Outcome::Refused,
            Costs::Tiles(n) => {
                if n > 100 || point.len() != 2 {
                    return Outcome::Refused;
                }
                let rows = n.div_ceil(point[0] as u64 + 1);
                let columns = n.div_ceil(point[1] as u64 + 1);
                if rows > 100 || columns > 100 {
                    return Outcome::Refused;
                }
                Outcome::Cost(2 * n * n * n + rows * (1 + n * n) + rows * columns * (1 + n))
            }
            Costs::Valley {
                bottom,
                coarse,
                limit,
            } => {
                if point.len() == 0 || coarse == 0 || point[0] >= limit {
                    return Outcome::Refused;
                }
                Outcome::Cost((point[0].abs_diff(bottom) / coarse) as u64)
            }
        }
    }
}

fn param(low: i64, high: i64) -> Param {
    Param { low, high, step: 1 }
}

fn start(rt: &impl Abort, alloc: Global, params: &[Param]) -> Result<Search, Fail> {
    start_repeated(rt, alloc, params, 1)
}

/// A search that measures each trial so many times.
fn start_repeated(
    rt: &impl Abort,
    alloc: Global,
    params: &[Param],
    repeat: u32,
) -> Result<Search, Fail> {
    assert!(rt; 1 <= repeat && repeat <= 9);
    let list = List::from_slice(alloc, params)?;
    assert!(rt; list.len() <= 6);
    match Grid::of(list) {
        Ok(grid) => Ok(Search::start(alloc, &grid, repeat)?),
        Err(_) => panic!(rt; "the parameters are within the limits"),
    }
}

/// The pending trial at a place, if there is one.
fn waiting(search: &Search, i: u32) -> Option<u32> {
    if i < search.pending() {
        Some(search.pending_at(i))
    } else {
        None
    }
}

/// Whether the first pending trial has this point.
fn waits_at(search: &Search, point: &[u32]) -> bool {
    search.pending() > 0 && search.point_of(search.pending_at(0)) == point
}

/// What the first pending trial costs.
fn next_outcome(search: &Search, costs: Costs) -> Outcome {
    if search.pending() > 0 {
        costs.of(search.point_of(search.pending_at(0)))
    } else {
        Outcome::Refused
    }
}

fn report(
    search: &mut Search,
    trial: u32,
    outcome: Outcome,
) -> Result<Result<(), RankError>, AllocError> {
    search.reserve(1)?;
    Ok(search.enter(trial, outcome))
}

/// Enters the pending trials in order, so many at most, and says how many there were.
fn enter(search: &mut Search, costs: Costs, most: usize) -> Result<usize, AllocError> {
    for entries in 0..most {
        let Some(trial) = waiting(search, 0) else {
            return Ok(entries);
        };
        let outcome = next_outcome(search, costs);
        if report(search, trial, outcome)?.is_err() {
            return Ok(entries);
        }
    }
    Ok(most)
}

fn state(search: &Search) -> (Phase, u64, u32) {
    (search.phase(), search.steps(), search.pending())
}

/// The trials at the first ranks, whose places are in order too; 99 where there is no such rank.
fn ranked(search: &Search) -> [u32; 6] {
    let mut trials = [99; 6];
    for r in 0..6 {
        if let Some(rank) = search.rank_at(r as u32)
            && rank.place as usize == r
        {
            trials[r] = rank.trial;
        }
    }
    trials
}

fn best_outcome(search: &Search) -> Option<Outcome> {
    match search.best() {
        Some(trial) => search.outcome_of(trial),
        None => None,
    }
}

#[test]
fn a_flat_row_ends_at_its_centre(rt: HostRuntime) -> Result<(), Fail> {
    let mut row = start(&rt, rt.alloc(), &[param(0, 20)])?;
    for index in [10, 14, 6] {
        assert!(rt; waits_at(&row, &[index]), "{index}");
        enter(&mut row, Costs::Same(12), 1)?;
    }
    assert_eq!(rt;
        (state(&row), ranked(&row)),
        ((Phase::Shrink, 0, 2), [0, 1, 2, 99, 99, 99])
    );
    for index in [12, 8, 11, 9] {
        assert!(rt; waits_at(&row, &[index]), "{index}");
        enter(&mut row, Costs::Same(12), 1)?;
    }
    assert_eq!(rt;
        (state(&row), ranked(&row)),
        ((Phase::Converged, 4, 0), [0, 0, 0, 99, 99, 99])
    );
    Ok(())
}

#[test]
fn each_round_of_a_tiled_product(rt: HostRuntime) -> Result<(), Fail> {
    let rows = [
        (16, 0, (Phase::Start, 0, 5)),
        (16, 5, (Phase::Reflect, 0, 4)),
        (16, 9, (Phase::Reflect, 1, 2)),
        (16, 11, (Phase::Try, 1, 1)),
        (16, 12, (Phase::Reflect, 2, 1)),
        (16, 13, (Phase::Probe, 5, 1)),
        (16, 14, (Phase::Converged, 6, 0)),
        (10, 9, (Phase::Try, 0, 1)),
        (10, 10, (Phase::Expand, 0, 1)),
        (10, 14, (Phase::Converged, 5, 0)),
    ];
    for (size, entries, after) in rows {
        let mut search = start(&rt, rt.alloc(), &[param(1, 6), param(1, 6)])?;
        enter(&mut search, Costs::Tiles(size), entries)?;
        assert_eq!(rt; state(&search), after, "{entries} entries at {size}");
    }
    Ok(())
}

#[test]
fn the_points_of_a_tiled_product(rt: HostRuntime) -> Result<(), Fail> {
    let points = [
        [2, 2],
        [3, 2],
        [1, 2],
        [2, 3],
        [2, 1],
        [4, 2],
        [5, 2],
        [4, 1],
        [4, 3],
        [5, 3],
        [5, 1],
        [5, 4],
        [5, 5],
        [4, 5],
    ];
    let mut search = start(&rt, rt.alloc(), &[param(1, 6), param(1, 6)])?;
    for point in points {
        assert!(rt; waits_at(&search, &point), "{point:?}");
        enter(&mut search, Costs::Tiles(16), 1)?;
    }
    assert_eq!(rt; ranked(&search), [12, 12, 12, 12, 12, 99]);
    assert_eq!(rt; best_outcome(&search), Some(Outcome::Cost(9116)));
    Ok(())
}

#[test]
fn refused_points_are_above_every_cost(rt: HostRuntime) -> Result<(), Fail> {
    // The one trial that is accepted, if any, is at each place of the first simplex in turn.
    for accepted in 0..4 {
        let mut search = start(&rt, rt.alloc(), &[param(0, 2)])?;
        for trial in 0..3 {
            let outcome = if trial == accepted {
                Outcome::Cost(u64::MAX)
            } else {
                Outcome::Refused
            };
            assert_eq!(rt; report(&mut search, trial, outcome)?, Ok(()));
        }
        let (first, best) = if accepted < 3 {
            (accepted, Some(Outcome::Cost(u64::MAX)))
        } else {
            (0, None)
        };
        assert_eq!(rt;
            (ranked(&search), best_outcome(&search)),
            ([first, first, first, 99, 99, 99], best)
        );
        assert_eq!(rt;
            (search.phase(), waiting(&search, 0)),
            (Phase::Converged, None)
        );
    }
    Ok(())
}

#[test]
fn only_a_pending_trial_is_entered(rt: HostRuntime) -> Result<(), Fail> {
    let mut search = start(&rt, rt.alloc(), &[param(0, 20)])?;
    for (trial, entered) in [(3, false), (1, true), (1, false), (2, true)] {
        let wanted = if entered {
            Ok(())
        } else {
            Err(RankError::NotPending { trial })
        };
        assert_eq!(rt;
            report(&mut search, trial, Outcome::Cost(2))?,
            wanted,
            "{trial}"
        );
    }
    assert_eq!(rt; (waiting(&search, 0), waiting(&search, 1)), (Some(0), None));
    Ok(())
}

#[test]
fn grids_at_their_limits(rt: HostRuntime) -> Result<(), Fail> {
    let six = [
        param(0, 7),
        param(0, 7),
        param(0, 7),
        param(0, 7),
        param(0, 3),
        param(0, 3),
    ];
    let wide = [Param {
        low: -1_048_576,
        high: 1_048_575,
        step: 32,
    }];
    let single = [
        Param {
            low: -1_048_576,
            high: 1_048_576,
            step: 1_048_576,
        },
        param(5, 5),
    ];
    let rows = [
        ([].as_slice(), Costs::Same(7), 7),
        (single.as_slice(), Costs::Same(1), 1),
        (six.as_slice(), Costs::Same(3), 3),
        (
            six.as_slice(),
            Costs::Valley {
                bottom: 7,
                coarse: 1,
                limit: 8,
            },
            0,
        ),
        (
            wide.as_slice(),
            Costs::Valley {
                bottom: 0,
                coarse: 1,
                limit: 65_535,
            },
            0,
        ),
        (
            wide.as_slice(),
            Costs::Valley {
                bottom: 64_000,
                coarse: 1,
                limit: 64_500,
            },
            0,
        ),
    ];
    for (params, costs, cost) in rows {
        let mut search = start(&rt, rt.alloc(), params)?;
        enter(&mut search, costs, 1000)?;
        assert_eq!(rt; search.phase(), Phase::Converged, "{costs:?}");
        assert_eq!(rt;
            best_outcome(&search),
            Some(Outcome::Cost(cost)),
            "{costs:?}"
        );
    }
    Ok(())
}

#[test]
fn a_trial_is_measured_several_times(rt: HostRuntime) -> Result<(), Fail> {
    let mut search = start_repeated(&rt, rt.alloc(), &[param(5, 5)], 3)?;
    let late = Err(RankError::NotPending { trial: 0 });
    let rows = [
        (Outcome::Cost(12), Ok(()), 2, None),
        (Outcome::Refused, late, 2, None),
        (Outcome::Cost(15), Ok(()), 1, None),
        (Outcome::Cost(11), Ok(()), 0, Some(Outcome::Cost(11))),
        (Outcome::Cost(1), late, 0, Some(Outcome::Cost(11))),
    ];
    for (outcome, answer, left, best) in rows {
        assert_eq!(rt; report(&mut search, 0, outcome)?, answer, "{outcome:?}");
        assert!(rt; search.trials() > 0);
        assert_eq!(rt;
            (search.left_of(0), best_outcome(&search)),
            (left, best),
            "{outcome:?}"
        );
    }
    assert_eq!(rt;
        (state(&search), search.versions()),
        ((Phase::Converged, 1, 0), 1)
    );
    Ok(())
}
