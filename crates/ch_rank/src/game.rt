ghost use Rattle.std.specs.Prelude.{◌≡◌, ◌≢◌, ℕ, ◌+◌, ◌<◌, ◌≤◌, [], ◌∷◌, ◌++◌, ◌-◌};
ghost use Rattle.std.specs.Prelude.{length, take, slice_index_or, slice_index};
ghost use Rattle.std.specs.Prelude.{slice_set, true, ◌^◌, Some, None, IfSome, IfOk};
ghost use Rattle.std.specs.Bool.{MatchBool};
ghost use Rattle.std.specs.List.{All};
ghost use Rattle.ch_grid.specs.Grid.{sizes};
ghost use Rattle.ch_grid.specs.Points.{is_point, count};
ghost use Rattle.ch_rank.specs.Leads.{Leads};
ghost use Rattle.ch_rank.specs.Moves.{moved, near, expansion, beside, around, first_simplex};
ghost use Rattle.ch_rank.specs.Rules.{rule};
ghost use Rattle.ch_rank.specs.Search.{place_of_best, best, below, point_at, asks};
ghost use Rattle.ch_rank.specs.Search.{moves, begins, stepped, lowers, is_flat};
ghost use Rattle.ch_rank.specs.Search.{costed, decides, only, advance, opening};
ghost use Rattle.ch_rank.specs.Board.{ask_one, known_by, IsRound, source, finish};
ghost use Rattle.ch_rank.specs.declared.outcome.Costed.{Costed};
ghost use Rattle.ch_rank.specs.declared.phase.Phase.TheVariants.{Start, Probe, Reflect, Try};

use crate::moves::{Move, centre, clamped_sum, moved, width};
use crate::outcome::{Costed, Outcome};
use crate::phase::Phase;
use crate::places::Places;
use crate::row::Row;
use crate::rows::{best, costed, is_flat, led_by, lowers, place_of_best, source};
use crate::trials::Trials;
use ch_grid::Grid;
use std::alloc::{AllocError, Global};
use std::marker::Model;
use std::mem::replace;

/// Where a search stands: the trials so far, the round that is being costed with the trials that it
/// asks for, the last simplex that was costed whole, and in the rounds `Try` and `Expand` the
/// reflections with their outcomes.
#[derive(Drop)]
pub(crate) struct Game {
    trials: Trials,
    phase: Phase,
    asked: Places,
    simplex: Row,
    kept: Row,
    steps: u64,
}

impl Model for Game {
    ghost use Rattle.ch_rank.specs.Search as spec;
    ghost use Rattle.ch_rank.specs.Board.{InRange};

    ghost Value = { spec.Game };

    ghost view = { λ g. record { sizes = g.trials.sizes; points = g.trials.points; phase = g.phase; asked = g.asked; simplex = g.simplex; kept = g.kept; steps = g.steps } };

    ghost invariant = { λ g. InRange g.trials.points g.asked g.simplex g.kept };
}

impl Game {
    /// A game that asks for the first simplex.
    pub(crate) fn start(alloc: Global, grid: &Grid) -> Result<Game, AllocError>
        ensures { IfOk result (λ game. game ≡ opening (sizes grid.now.params)) }
    {
        let mut game = Game {
            trials: Trials::start(alloc, grid)?,
            phase: Phase::Start,
            asked: Places::new(),
            simplex: Row::new(),
            kept: Row::new(),
            steps: 0,
        };
        game.ask_first();
        Ok(game)
    }

    /// Asks for the first simplex.
    fn ask_first(&mut self)
        requires { self.old.asked ≡ [] }
        ensures { self.new ≡ asks self.old self.old.phase (first_simplex self.old.sizes) }
    {
        let dims = self.trials.sizes().len();
        let row = centre(self.trials.sizes());
        self.ask_row(&row);
        for k in 0..dims {
            self.ask_around(&row, k);
        }
    }

    /// Asks for the two points of the first simplex in a coordinate.
    fn ask_around(&mut self, row: &[u32; 6], k: usize)
        requires in_grid { is_point self.old.sizes (take (length self.old.sizes) row.now) ≡ true }
        requires k { k < length self.old.sizes }
        requires dims { length self.old.sizes ≤ 6 }
        requires room { length self.old.asked + 1 < 13 }
        ensures { self.new ≡ finish self.old (around self.old.sizes (take (length self.old.sizes) row.now) k) }
    {
        let here = row[k];
        let size = self.trials.sizes()[k];
        self.ask_at(row, k, clamped_sum(here, width(size), size));
        self.ask_at(row, k, here.saturating_sub(width(size)));
    }

    /// Asks for one more point.
    fn ask(&mut self, point: &[u32])
        requires in_grid { is_point self.old.sizes point.now ≡ true }
        requires room { length self.old.asked < 13 }
        ensures { self.new ≡ ask_one self.old point.now }
    {
        let trial = self.trials.enlist(point);
        self.asked.push(trial);
    }

    /// Asks for the point with these indices, which has zeros after them.
    fn ask_row(&mut self, row: &[u32; 6])
        requires in_grid { is_point self.old.sizes (take (length self.old.sizes) row.now) ≡ true }
        requires room { length self.old.asked < 13 }
        ensures { self.new ≡ ask_one self.old (take (length self.old.sizes) row.now) }
    {
        let dims = self.trials.sizes().len();
        self.ask(&row[..dims]);
    }

    /// Asks for the point with another index in one coordinate.
    fn ask_at(&mut self, row: &[u32; 6], k: usize, index: u32)
        requires in_grid { is_point self.old.sizes (take (length self.old.sizes) row.now) ≡ true }
        requires k { k < length self.old.sizes }
        requires dims { length self.old.sizes ≤ 6 }
        requires index { index < slice_index self.old.sizes k }
        requires room { length self.old.asked < 13 }
        ensures { self.new ≡ ask_one self.old (slice_set (take (length self.old.sizes) row.now) k index) }
    {
        let mut other = *row;
        other[k] = index;
        self.ask_row(&other);
    }

    /// The point of a trial, moved about another's.
    fn shifted(&self, how: Move, top: u32, trial: u32) -> [u32; 6]
        requires top { top < length self.now.points }
        requires trial { trial < length self.now.points }
        ensures value { take (length self.now.sizes) result
            ≡ moved (rule how) self.now.sizes (point_at self.now top) (point_at self.now trial) }
        ensures in_grid { is_point self.now.sizes (take (length self.now.sizes) result) ≡ true }
    {
        moved(
            how,
            self.trials.sizes(),
            self.trials.point_of(top),
            self.trials.point_of(trial),
        )
    }

    /// The trial at a place of the simplex.
    fn trial_at(&self, place: usize) -> u32
        requires { place < length self.now.simplex }
        ensures value { (c : Costed) → result ≡ (slice_index_or self.now.simplex place c).trial }
        ensures here { result < length self.now.points }
    {
        let row = self.simplex.as_slice();
        row[place].trial
    }

    /// Asks for the moves of all places but the best.
    fn ask_moves(&mut self, phase: Phase, how: Move)
        requires { 0 < length self.old.simplex }
        ensures { self.new ≡ asks self.old phase (moves (rule how) self.old) }
    {
        let best = place_of_best(self.simplex.as_slice());
        let places = self.simplex.as_slice().len();
        let top = self.trial_at(best);
        self.begin(phase);
        for i in 0..places {
            if i != best {
                let trial = self.trial_at(i);
                let point = self.shifted(how, top, trial);
                self.ask_row(&point);
            }
        }
    }

    /// Asks for the expansion of the source of the best reflection.
    fn ask_try(&mut self)
        requires some { 0 < length self.old.simplex }
        requires kept { 0 < length self.old.kept }
        ensures { self.new ≡ asks self.old Try (only (place_of_best self.old.kept) (moves expansion self.old)) }
    {
        let places = self.simplex.as_slice().len();
        let best = place_of_best(self.simplex.as_slice());
        let from = source(best, place_of_best(self.kept.as_slice()));
        let top = self.trial_at(best);
        if from < places {
            let trial = self.trial_at(from);
            let row = self.shifted(Move::Expand, top, trial);
            self.begin(Phase::Try);
            self.ask_row(&row);
        } else {
            self.begin(Phase::Try);
        }
    }

    /// Asks for the neighbours of the best point.
    fn ask_near(&mut self)
        requires { 0 < length self.old.simplex }
        ensures { self.new ≡ asks self.old Probe (near self.old.sizes (point_at self.old (best self.old.simplex).trial)) }
    {
        let top = self.trial_at(place_of_best(self.simplex.as_slice()));
        let row = self.trials.row_of(top);
        let dims = self.trials.sizes().len();
        self.begin(Phase::Probe);
        for k in 0..dims {
            self.ask_beside(&row, k);
        }
    }

    /// Asks for the points one more and one less in a coordinate, where they are in the grid.
    fn ask_beside(&mut self, row: &[u32; 6], k: usize)
        requires in_grid { is_point self.old.sizes (take (length self.old.sizes) row.now) ≡ true }
        requires k { k < length self.old.sizes }
        requires dims { length self.old.sizes ≤ 6 }
        requires room { length self.old.asked + 1 < 13 }
        ensures { self.new ≡ finish self.old (beside self.old.sizes (take (length self.old.sizes) row.now) k) }
    {
        let here = row[k];
        let size = self.trials.sizes()[k];
        if here + 1 < size {
            self.ask_at(row, k, here + 1);
        }
        if here > 0 {
            self.ask_at(row, k, here - 1);
        }
    }

    /// A round begins.
    fn begin(&mut self, phase: Phase)
        ensures { self.new ≡ record self.old { phase = phase; asked = [] } }
    {
        self.phase = phase;
        self.asked.clear();
    }

    /// A step begins on this simplex.
    fn begins(&mut self, row: Row)
        requires some { 0 < length row }
        requires here { All (λ c. c.trial < length self.old.points) row }
        ensures { self.new ≡ begins self.old row }
    {
        self.simplex = row;
        self.kept.clear();
        if is_flat(self.simplex.as_slice()) {
            self.ask_near();
        } else {
            self.ask_moves(Phase::Reflect, Move::Reflect);
        }
    }

    /// A step ends with the best point and these.
    fn stepped(&mut self, row: &[Costed])
        requires some { 0 < length self.old.simplex }
        requires few { length row.now ≤ 13 }
        requires here { All (λ c. c.trial < length self.old.points) row.now }
        requires steps { self.old.steps < 2 ^ 63 }
        ensures { self.new ≡ stepped self.old (best self.old.simplex ∷ row.now) }
    {
        let next = led_by(best(self.simplex.as_slice()), row);
        self.steps += 1;
        self.begins(next);
    }

    /// The round is decided.
    fn decide(&mut self, row: Row)
        requires first { self.old.phase ≡ Start → 0 < length row }
        requires later { self.old.phase ≢ Start → 0 < length self.old.simplex }
        requires few { length row ≤ 13 }
        requires here { All (λ c. c.trial < length self.old.points) row }
        requires steps { self.old.steps < 2 ^ 63 }
        ensures { self.new ≡ decides self.old.phase self.old row }
    {
        match self.phase {
            Phase::Start => self.begins(row),
            Phase::Reflect => self.reflected(row),
            Phase::Try => self.tried(&row),
            Phase::Expand | Phase::Shrink => self.stepped(row.as_slice()),
            Phase::Probe => self.probed(&row),
            Phase::Converged => {}
        }
    }

    /// Where some reflection beats the best point, the expansion of the best one's source is tried.
    /// Else all shrink.
    fn reflected(&mut self, row: Row)
        requires some { 0 < length self.old.simplex }
        requires few { length row ≤ 13 }
        requires here { All (λ c. c.trial < length self.old.points) row }
        ensures { self.new ≡ decides Reflect self.old row }
    {
        if lowers(best(self.simplex.as_slice()), row.as_slice()) {
            self.kept = row;
            self.ask_try();
        } else {
            self.ask_moves(Phase::Shrink, Move::Halfway);
        }
    }

    /// Where the tried expansion beats the best reflection, all expand. Else the reflections are
    /// taken.
    fn tried(&mut self, row: &Row)
        requires some { 0 < length self.old.simplex }
        requires steps { self.old.steps < 2 ^ 63 }
        ensures { self.new ≡ decides Try self.old row.now }
    {
        if lowers(best(self.kept.as_slice()), row.as_slice()) {
            self.ask_moves(Phase::Expand, Move::Expand);
        } else {
            let kept = replace(&mut self.kept, Row::new());
            self.stepped(kept.as_slice());
        }
    }

    /// Where a neighbour beats the best point, they are the next simplex. Else the search has
    /// converged.
    fn probed(&mut self, row: &Row)
        requires some { 0 < length self.old.simplex }
        requires few { length row.now ≤ 13 }
        requires here { All (λ c. c.trial < length self.old.points) row.now }
        requires steps { self.old.steps < 2 ^ 63 }
        ensures { self.new ≡ decides Probe self.old row.now }
    {
        if lowers(best(self.simplex.as_slice()), row.as_slice()) {
            self.stepped(row.as_slice());
        } else {
            self.phase = Phase::Converged;
            self.asked.clear();
            self.steps += 1;
        }
    }

    /// The round's trials with their outcomes, or none where one is not known.
    fn asked_row(&self, outcomes: &[Option<Outcome>]) -> Option<Row>
        requires { length outcomes.now ≡ count self.now.sizes }
        ensures value { result ≡ costed (known_by outcomes.now) self.now.asked }
        ensures row { IfSome result (λ row. (length row ≤ 13) × (length row ≡ length self.now.asked)
            × All (λ c. c.trial < length self.now.points) row) }
    {
        let _ = self.trials.len();
        costed(outcomes, self.asked.as_slice())
    }

    /// One round, if each trial that it asks for has an outcome.
    fn advance(&mut self, outcomes: &[Option<Outcome>], most: u64) -> bool
        requires long { length outcomes.now ≡ count self.old.sizes }
        requires round { IsRound self.old }
        requires most { most < 2 ^ 63 }
        ensures { MatchBool result (advance most (known_by outcomes.now) self.old
            ≡ Some self.new) ((advance most (known_by outcomes.now) self.old ≡ None)
            × (self.new ≡ self.old)) }
    {
        if self.steps >= most || self.phase == Phase::Converged {
            return false;
        }
        match self.asked_row(outcomes) {
            None => false,
            Some(row) => {
                self.decide(row);
                true
            }
        }
    }

    /// All rounds that are decided.
    pub(crate) fn settle(&mut self, outcomes: &[Option<Outcome>], most: u64)
        requires long { length outcomes.now ≡ count self.old.sizes }
        requires round { IsRound self.old }
        requires most { most < 2 ^ 63 }
        ensures fits { length self.new.points ≤ count self.new.sizes }
        ensures led { Leads most (known_by outcomes.now) self.old self.new }
        ensures over { advance most (known_by outcomes.now) self.new ≡ None }
    {
        while self.advance(outcomes, most) {}
        let _ = self.trials.len();
    }

    /// How many trials there are.
    pub(crate) fn len(&self) -> u32
        ensures value { result ≡ length self.now.points }
        ensures few { length self.now.points ≤ count self.now.sizes }
    {
        self.trials.len()
    }

    /// The number from which on a trial may wait: a round waits for no more trials than it asks
    /// for.
    pub(crate) fn first_waiting(&self) -> u32
        ensures { result ≡ length self.now.points - length self.now.asked }
    {
        let asked = self.asked.as_slice().len() as u32;
        self.trials.len().saturating_sub(asked)
    }

    pub(crate) fn sizes(&self) -> &[u32]
        ensures value { result.now ≡ self.now.sizes }
        ensures fits { length self.now.points ≤ count self.now.sizes }
    {
        let trials = &self.trials;
        trials.sizes()
    }

    pub(crate) fn phase(&self) -> Phase
        ensures { result ≡ self.now.phase }
    {
        self.phase
    }

    pub(crate) fn steps(&self) -> u64
        ensures { result ≡ self.now.steps }
    {
        self.steps
    }

    /// The last simplex that was costed whole.
    pub(crate) fn simplex(&self) -> &[Costed]
        ensures value { result.now ≡ self.now.simplex }
        ensures few { length result.now ≤ 14 }
    {
        self.simplex.as_slice()
    }

    pub(crate) fn point_of(&self, trial: u32) -> &[u32]
        requires { trial < length self.now.points }
        ensures value { result.now ≡ slice_index_or self.now.points trial [] }
        ensures in_grid { is_point self.now.sizes result.now ≡ true }
    {
        let trials = &self.trials;
        trials.point_of(trial)
    }
}
