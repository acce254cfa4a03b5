ghost use Rattle.std.specs.Prelude.{ℕ, ◌≡◌, ◌≢◌, ◌↔◌, IsSomeAnd, IsSome, ◌+◌, ◌-◌, ◌*◌};
ghost use Rattle.std.specs.Prelude.{◌<◌, ◌≤◌, ◌++◌, ◌∷◌, [], OnOk, OnErr, IfOk, IfErr};
ghost use Rattle.std.specs.Prelude.{IfSome, length, option_map, slice_index};
ghost use Rattle.std.specs.Prelude.{slice_index_or, slice_get, true, false, nat_lt, ◌&&◌};
ghost use Rattle.ch_grid.specs.Grid.{sizes};
ghost use Rattle.ch_grid.specs.Points.{count, is_point};
ghost use Rattle.ch_rank.specs.Course.{Falls, IsLeast};
ghost use Rattle.ch_rank.specs.Entries.{are_legal, is_refused, may_enter, left_of};
ghost use Rattle.ch_rank.specs.Entries.{most_steps, pending, played, known_in};
ghost use Rattle.ch_rank.specs.Entries.{completed_in, completed_now, outcome_with};
ghost use Rattle.ch_rank.specs.declared.phase.Phase.TheVariants.{Converged};
ghost use Rattle.ch_rank.specs.Ranks.{ranks, rank_of, versions, last_of, better_by, versions_by};
ghost use Rattle.ch_rank.specs.declared.outcome.Costed.{Costed};

use crate::bound::bound;
use crate::game::Game;
use crate::outcome::{Costed, Outcome};
use crate::phase::Phase;
use crate::ranks::{Rank, rank_in};
use crate::tally::Tally;
use ch_grid::{Grid, Param};
use std::alloc::{AllocError, Global};
use std::marker::Model;

/// Why an entry is refused.
#[derive(Clone, Copy, Debug, PartialEq, Eq)]
pub enum RankError {
    /// The trial isn't pending: it has no point yet, or it has its outcome. Or a trial that was
    /// measured is refused.
    NotPending { trial: u32 },
}

/// A search by parallel rank ordering, in which each trial is measured a number of times and counts
/// by the least cost. Contracts see its grid, this number and its entries, and the number of
/// entries that can be made without memory.
#[derive(Drop)]
pub struct Search {
    params: Vec<Param>,
    repeat: u32,
    game: Game,
    outcomes: Vec<Option<Outcome>>,
    tallies: Vec<Tally>,
    entries: Vec<Costed>,
    best: Option<Costed>,
    versions: u32,
    most: u64,
}

impl Model for Search {
    ghost use Rattle.std.specs.Prelude.{◌-◌, vec_capacity, vec_len};
    ghost use Rattle.ch_rank.specs.Entries.{Searched, IsSearch};

    ghost Value = { Searched };

    ghost view = { λ s. record { grid = s.params.items; repeat = s.repeat; entries = s.entries.items; spare = vec_capacity s.entries - vec_len s.entries } };

    ghost invariant = { λ s. IsSearch s.params.items s.repeat s.game s.outcomes.items s.tallies.items s.entries.items s.best s.versions s.most };
}

impl Search {
    /// A search that waits for its first simplex. It takes one cell for each point of the grid, so
    /// that to remember an outcome by its point never takes memory.
    pub fn start(alloc: Global, grid: &Grid, repeat: u32) -> Result<Search, AllocError>
        requires { (1 ≤ repeat) × (repeat ≤ 9) }
        ensures { IfOk result (λ search. search
            ≡ record { grid = grid.now.params; repeat = repeat; entries = []; spare = search.spare }) }
    {
        let game = Game::start(alloc, grid)?;
        let points = grid.points();
        let most = bound(game.sizes(), points);
        let fresh = Tally {
            left: repeat,
            least: Outcome::Refused,
        };
        Ok(Search {
            params: Vec::from_slice(alloc, grid.params.as_slice())?,
            repeat,
            game,
            outcomes: vec![in alloc; None; points as usize]?,
            tallies: vec![in alloc; fresh; points as usize]?,
            entries: Vec::new(alloc),
            best: None,
            versions: 0,
            most,
        })
    }

    /// Takes memory for so many more entries.
    pub fn reserve(&mut self, entries: u32) -> Result<(), AllocError>
        ensures ok { OnOk result ((entries ≤ self.new.spare) × (self.new
            ≡ record self.old { spare = self.new.spare })) }
        ensures err { OnErr result (self.new ≡ self.old) }
        ensures kept { self.old.spare ≤ self.new.spare }
    {
        self.entries.reserve(entries as usize)
    }

    /// One entry, and all rounds that are then decided.
    pub fn enter(&mut self, trial: u32, outcome: Outcome) -> Result<(), RankError>
        requires { 0 < self.old.spare }
        ensures ok { OnOk result ((may_enter self.old trial outcome ≡ true) × (self.new
            ≡ record self.old { entries = self.old.entries ++ record { trial = trial; outcome = outcome } ∷ []; spare = self.old.spare - 1 })) }
        ensures err { IfErr result (λ e. (e ≡ RankError.NotPending trial)
            × (may_enter self.old trial outcome ≡ false) × (self.new ≡ self.old)) }
        // No trial has more entries than it is measured times.
        ensures few { length self.new.entries ≤ self.new.repeat * count (sizes self.new.grid) }
    {
        if trial >= self.game.len() || self.outcomes[trial as usize].is_some() {
            return Err(RankError::NotPending { trial });
        }
        let tally = self.tallies[trial as usize];
        if is_late(outcome, tally, self.repeat) {
            return Err(RankError::NotPending { trial });
        }
        let done = tally.outcome_with(outcome);
        self.entries.push_reserved(Costed { trial, outcome });
        self.versions += versions_by(self.best, done);
        self.best = better(self.best, trial, done);
        self.tallies[trial as usize] = tally.with(outcome);
        self.outcomes[trial as usize] = done;
        self.game.settle(&self.outcomes, self.most);
        Ok(())
    }

    /// How many measurements a trial still needs: none exactly where it has an outcome.
    pub fn left_of(&self, trial: u32) -> u32
        requires { trial < length (played self.now).points }
        ensures { result ≡ left_of self.now trial }
    {
        if self.outcomes[trial as usize].is_some() {
            0
        } else {
            self.tallies[trial as usize].left
        }
    }

    /// How many trials are pending. There are none exactly where the search has ended.
    pub fn pending(&self) -> u32
        ensures value { result ≡ length (pending self.now) }
        ensures end { (result ≡ 0) ↔ ((played self.now).phase ≡ Converged) }
    {
        let mut pending = 0;
        for trial in self.game.first_waiting()..self.game.len() {
            if self.outcomes[trial as usize].is_none() {
                pending += 1;
            }
        }
        pending
    }

    /// The pending trial at a place, in the order of trial numbers.
    pub fn pending_at(&self, i: u32) -> u32
        requires { i < length (pending self.now) }
        ensures value { result ≡ slice_index (pending self.now) i }
        ensures here { result < length (played self.now).points }
    {
        let mut left = i;
        for trial in self.game.first_waiting()..self.game.len() {
            if self.outcomes[trial as usize].is_none() {
                if left == 0 {
                    return trial;
                }
                left -= 1;
            }
        }
        unreachable!()
    }

    /// A number from which on trials may be pending: each trial below it has its outcome.
    pub fn first_waiting(&self) -> u32
        ensures { (trial : ℕ) → trial < result → IsSome (known_in self.now trial) }
    {
        self.game.first_waiting()
    }

    /// The point of a trial, as the index of each parameter.
    pub fn point_of(&self, trial: u32) -> &[u32]
        requires { trial < length (played self.now).points }
        ensures value { result.now ≡ slice_index_or (played self.now).points trial [] }
        ensures in_grid { is_point (sizes self.now.grid) result.now ≡ true }
    {
        let game = &self.game;
        game.point_of(trial)
    }

    /// How many places the last fully costed simplex has; none before there is one.
    #[tactic(auto, using(crate::proofs::Ranking::length_order))]
    pub fn places(&self) -> u32
        ensures value { result ≡ length (ranks (played self.now).simplex) }
        ensures few { result ≤ 14 }
    {
        self.game.simplex().len() as u32
    }

    /// The place at rank `r`, counted from 0: the places of the last fully costed simplex in order
    /// of outcome, then of place.
    pub fn rank_at(&self, r: u32) -> Option<Rank>
        ensures value { result
            ≡ option_map rank_of (slice_get (ranks (played self.now).simplex) r) }
        ensures here { IfSome result (λ rank. rank.trial < length (played self.now).points) }
        ensures entered { IfSome result (λ rank. IsSome (known_in self.now rank.trial)) }
        // At the end the first rank's trial has the least outcome, and no neighbour of its point in
        // the grid beats it.
        ensures least { (played self.now).phase ≡ Converged → r ≡ 0
            → IsSomeAnd result (λ rank. IsLeast self.now rank.trial) }
    {
        rank_in(self.game.simplex(), r)
    }

    /// The trial that is best, the first of the least cost. Refused points count for nothing.
    pub fn best(&self) -> Option<u32>
        ensures value { result
            ≡ option_map (λ e. e.trial) (last_of (versions (completed_in self.now))) }
        ensures here { IfSome result (λ trial. trial < length (played self.now).points) }
        // Its outcome is the cost of the last version.
        ensures outcome { IfSome result (λ trial. known_in self.now trial
            ≡ option_map (λ e. e.outcome) (last_of (versions (completed_in self.now)))) }
    {
        match self.best {
            Some(entry) => Some(entry.trial),
            None => None,
        }
    }

    /// How many versions there are: each time that a trial got a cost strictly below all before.
    pub fn versions(&self) -> u32
        ensures value { result ≡ length (versions (completed_in self.now)) }
    {
        self.versions
    }

    /// How many trials there are, pending ones included.
    pub fn trials(&self) -> u32
        ensures value { result ≡ length (played self.now).points }
        ensures few { result ≤ count (sizes self.now.grid) }
        ensures small { count (sizes self.now.grid) ≤ 65536 }
    {
        self.game.len()
    }

    /// Tells a caller that the search's entries are legal: each was allowed after those before it.
    /// It does nothing.
    pub fn entries_are_legal(&self)
        ensures { are_legal self.now.grid self.now.repeat self.now.entries ≡ true }
    {
        let _ = &self.entries;
    }

    /// The round that is being costed.
    pub fn phase(&self) -> Phase
        ensures { result ≡ (played self.now).phase }
    {
        self.game.phase()
    }

    /// How many steps were made. The search ends before it comes to the bound at which it is cut.
    pub fn steps(&self) -> u64
        ensures value { result ≡ (played self.now).steps }
        ensures within { result ≤ most_steps self.now }
        ensures before_end { (played self.now).phase ≢ Converged → result < most_steps self.now }
        ensures falls { Falls self.now }
    {
        self.game.steps()
    }

    /// The outcome of a trial, if it has one.
    pub fn outcome_of(&self, trial: u32) -> Option<Outcome>
        requires { trial < length (played self.now).points }
        ensures { result ≡ known_in self.now trial }
    {
        self.outcomes[trial as usize]
    }
}

/// Whether the outcome refuses a trial that was measured already.
fn is_late(outcome: Outcome, tally: Tally, repeat: u32) -> bool
    ensures { result ≡ (is_refused outcome && nat_lt tally.left repeat) }
{
    outcome.is_refused() && tally.left < repeat
}

/// How many versions a trial makes that gets this outcome.
fn versions_by(best: Option<Costed>, done: Option<Outcome>) -> u32
    ensures value { result ≡ versions_by best done }
    ensures one { result ≤ 1 }
{
    let Some(outcome) = done else {
        return 0;
    };
    let least = match best {
        Some(so_far) => so_far.outcome,
        None => Outcome::Refused,
    };
    if outcome.is_below(least) { 1 } else { 0 }
}

/// The better of the best trial so far and a later one, if that has its outcome.
fn better(best: Option<Costed>, trial: u32, done: Option<Outcome>) -> Option<Costed>
    ensures { result ≡ better_by best (completed_now trial None done) }
{
    let Some(outcome) = done else {
        return best;
    };
    let least = match best {
        Some(so_far) => so_far.outcome,
        None => Outcome::Refused,
    };
    if outcome.is_below(least) {
        Some(Costed { trial, outcome })
    } else {
        best
    }
}
