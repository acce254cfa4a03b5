//! The search from its first trial to its end.
ghost use Rattle.std.specs.Prelude.{◌≡◌, ℕ, ◌*◌, ◌<◌, ◌≤◌, IfOk, IsTrue, Result, length};
ghost use Rattle.ch_script.specs.declared.refusal.Refusal.{Refusal};
ghost use Rattle.ch_grid.specs.Grid.{sizes};
ghost use Rattle.ch_grid.specs.Points.{count, is_point};
ghost use Rattle.ch_rank.specs.Entries.{pending};
ghost use Rattle.ch_report.specs.Sessions.{is_inside};
ghost use Rattle.ch_tune.specs.Steps.{Adds, AreJudged};
ghost use Rattle.ch_tune.specs.Tuned.{IsTuned, found_of, outcome_of};

use crate::judge::Judge;
use ch_affine::List;
use ch_rank::{Outcome, Search};
use ch_report::{EntryLine, Found, SessionPart, summary};
use std::alloc::{AllocError, Global};

/// What a trial comes to by what is said of its point.
fn outcome_of(found: &Found) -> Outcome
    ensures { (said : Result ℕ Refusal) → found.now ≡ found_of said → result ≡ outcome_of said }
{
    match found {
        Found::Cost { cost, .. } => Outcome::Cost(*cost),
        Found::Refused(_) => Outcome::Refused,
    }
}

/// Enters what is said of the point of the least pending trial, and gives the entry's line.
fn next<J: Judge>(alloc: Global, judge: &J, search: &mut Search) -> Result<EntryLine, AllocError>
    requires grid { search.old.grid ≡ J.params judge.now }
    requires some { 0 < length (pending search.old) }
    requires judged { AreJudged (J.judged judge.now) search.old }
    ensures adds { IfOk result (λ line. Adds (J.judged judge.now) search.old search.new line) }
    ensures grid { search.new.grid ≡ search.old.grid }
    ensures repeat { search.new.repeat ≡ search.old.repeat }
    ensures inside { IfOk result (λ line.
        IsTrue (is_point (sizes (J.params judge.now)) line.point)) }
    ensures few { IfOk result (λ line.
        length search.new.entries ≤ search.new.repeat * count (sizes search.new.grid)) }
{
    let trial = search.pending_at(0);
    let point = List::from_slice(alloc, search.point_of(trial))?;
    let found = judge.judge(alloc, point.as_slice())?;
    search.reserve(1)?;
    match search.enter(trial, outcome_of(&found)) {
        Ok(()) => {
            search.entries_are_legal();
            Ok(EntryLine {
                trial,
                point,
                found,
            })
        }
        Err(_) => unreachable!(),
    }
}

/// Leads a search over the grid of a subject from its first trial to its end: the least pending
/// trial is measured, again and again, each trial `repeat` times unless it is refused. What is told
/// of it at the end has a line for each entry.
pub fn tune<J: Judge>(alloc: Global, judge: &J, repeat: u32) -> Result<SessionPart, AllocError>
    requires { (1 ≤ repeat) × (repeat ≤ 9) }
    ensures tuned { IfOk result (λ part.
        IsTuned (J.params judge.now) repeat (J.judged judge.now) part) }
    ensures inside { IfOk result (λ part. IsTrue (is_inside (J.params judge.now) part)) }
{
    let mut search = Search::start(alloc, judge.grid(), repeat)?;
    let mut lines = List::new(alloc);
    while search.pending() > 0 {
        let line = next(alloc, judge, &mut search)?;
        lines.push(line)?;
    }
    summary(alloc, &search, lines)
}
