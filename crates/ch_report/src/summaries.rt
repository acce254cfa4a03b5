//! What a search came to.
ghost use Rattle.std.specs.Prelude.{◌≡◌, ◌<◌, IfOk, IfSome, IsTrue, length, map, option_map};
ghost use Rattle.std.specs.List.{list_all};
ghost use Rattle.ch_grid.specs.Grid.{sizes};
ghost use Rattle.ch_grid.specs.Points.{is_point};
ghost use Rattle.ch_rank.specs.Entries.{known_in, played};
ghost use Rattle.ch_rank.specs.Ranks.{rank_of, ranks};
ghost use Rattle.ch_report.specs.Sessions.{best_inside, is_inside};
ghost use Rattle.ch_report.specs.Summary.{best_of, best_trial, cost_of, line_of, summary};

use crate::part::{BestLine, EntryLine, RankLine, SessionPart};
use ch_affine::List;
use ch_rank::{Outcome, Rank, Search};
use std::alloc::{AllocError, Global};

fn cost_of(outcome: Option<Outcome>) -> Option<u64>
    ensures { result ≡ cost_of outcome }
{
    match outcome {
        Some(Outcome::Cost(cost)) => Some(cost),
        _ => None,
    }
}

/// The line of a place of the simplex.
fn line_of(alloc: Global, search: &Search, rank: Rank) -> Result<RankLine, AllocError>
    requires { rank.trial < length (played search.now).points }
    ensures value { IfOk result (λ line. line ≡ line_of search.now rank) }
    ensures inside { IfOk result (λ line. IsTrue (is_point (sizes search.now.grid) line.point)) }
{
    let point = List::from_slice(alloc, search.point_of(rank.trial))?;
    let cost = cost_of(search.outcome_of(rank.trial));
    Ok(RankLine {
        place: rank.place,
        point,
        cost,
    })
}

/// The lines of the places, in the order of their ranks.
fn rank_lines(alloc: Global, search: &Search) -> Result<List<RankLine>, AllocError>
    ensures value { IfOk result (λ lines.
        lines ≡ map (λ p. line_of search.now (rank_of p)) (ranks (played search.now).simplex)) }
    ensures inside { IfOk result (λ lines.
        IsTrue (list_all (λ r. is_point (sizes search.now.grid) r.point) lines)) }
{
    let mut lines = List::new(alloc);
    for r in 0..search.places() {
        let Some(rank) = search.rank_at(r) else {
            unreachable!();
        };
        lines.push(line_of(alloc, search, rank)?)?;
    }
    Ok(lines)
}

fn best_line(alloc: Global, search: &Search, trial: u32) -> Result<BestLine, AllocError>
    requires { trial < length (played search.now).points }
    ensures value { IfOk result (λ line. line ≡ best_of search.now trial) }
    ensures inside { IfOk result (λ line. IsTrue (is_point (sizes search.now.grid) line.point)) }
{
    let point = List::from_slice(alloc, search.point_of(trial))?;
    let cost = cost_of(search.outcome_of(trial)).unwrap_or(0);
    Ok(BestLine { point, cost })
}

/// The line of the best point, if a point has a cost.
fn best_found(alloc: Global, search: &Search) -> Result<Option<BestLine>, AllocError>
    ensures value { IfOk result (λ best.
        best ≡ option_map (best_of search.now) (best_trial search.now)) }
    ensures inside { IfOk result (λ best. IsTrue (best_inside search.now.grid best)) }
{
    match search.best() {
        None => Ok(None),
        Some(trial) => Ok(Some(best_line(alloc, search, trial)?)),
    }
}

/// What a search came to, with the lines of its entries: its steps, its round, the places of its
/// simplex and its best point.
pub fn summary(
    alloc: Global,
    search: &Search,
    entries: List<EntryLine>,
) -> Result<SessionPart, AllocError>
    ensures value { IfOk result (λ part. part ≡ summary search.now entries) }
    ensures inside { IsTrue (list_all (λ e. is_point (sizes search.now.grid) e.point) entries)
        → IfOk result (λ part. IsTrue (is_inside search.now.grid part)) }
{
    let ranks = rank_lines(alloc, search)?;
    let best = best_found(alloc, search)?;
    Ok(SessionPart {
        entries,
        steps: search.steps(),
        phase: search.phase(),
        ranks,
        best,
    })
}
