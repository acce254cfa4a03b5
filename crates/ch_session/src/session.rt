ghost use Rattle.std.specs.Prelude.{◌≡◌, ℕ, ◌+◌, ◌-◌, ◌<◌, ◌≤◌, ◌++◌, ◌∷◌, []};
ghost use Rattle.std.specs.Prelude.{IfOk, OnOk, OnErr, length, true, false};
ghost use Rattle.std.specs.Prelude.{slice_get, option_copied, is_some, Some, None};
ghost use Rattle.std.specs.Arc.{arc_value};
ghost use Rattle.ch_rank.specs.Search.{point_at};
ghost use Rattle.ch_session.specs.declared.event.Event.TheVariants.{Good, Refused, Leave, Report};
ghost use Rattle.ch_session.specs.History.{game, trials, is_legal, is_claimed_by};
ghost use Rattle.ch_session.specs.History.{is_held_by, left_after, is_built, fetch_gives};
ghost use Rattle.ch_session.specs.History.{is_free, first_trial, holds, news, searched};
ghost use Rattle.ch_session.specs.Replies.{Past, after, original_made, trial_made};
ghost use Rattle.ch_session.specs.Replies.{ClaimReply, added_by_claim, BuiltFits, FetchReply};
ghost use Rattle.ch_session.specs.Replies.{added_by_fetch, ReportReply, added_by_report};
ghost use Rattle.ch_session.specs.Replies.{BuiltReply, added_by_built, added_by_leave};

use crate::cell::{Cell, renew};
use crate::event::Event;
use crate::made::Made;
use crate::replies::{Built, ClaimError, Fetched, Job, NotClaimed, NotLeased};
use ch_affine::List;
use ch_grid::Grid;
use ch_nest::Nest;
use ch_rank::{Outcome, Search};
use ch_script::{Recipe, Refusal};
use std::alloc::{AllocError, Global};
use std::marker::Model;
use std::mem::replace;
use std::snapshot::Snapshot;
use std::sync::Arc;

/// One tuning session: the history of what its clients and builders did.
#[derive(Drop)]
pub struct Session<V: Made + Drop> {
    subject: u32,
    nest: Snapshot<Nest>,
    recipe: Snapshot<Recipe>,
    search: Search,
    cells: Vec<Cell<V>>,
    owed: u32,
    counted: u64,
    current: Arc<V>,
    events: Vec<Event>,
}

impl<V: Made + Drop> Model for Session<V> {
    ghost use Rattle.std.specs.Prelude.{vec_capacity};
    ghost use Rattle.std.specs.Arc.{arc_value};
    ghost use Rattle.ch_session.specs.Replies.{Past};
    ghost use Rattle.ch_session.specs.Kept.{IsSession, past_of};
    ghost use Rattle.std.specs.Coded.{codes};
    ghost use Rattle.ch_nest.specs.contracts.nest.Item as item;
    ghost use Rattle.ch_script.specs.contracts.recipe.Cond as cond;
    ghost use Rattle.ch_script.specs.contracts.recipe.Command as command;

    ghost Value = { Past };

    ghost coded = { Prim.hlevel (codes, item.the_row.coded, cond.the_row.coded, command.the_row.coded) };

    ghost view = { λ s. past_of s.subject s.nest.value s.recipe.value s.search s.events.items };

    ghost invariant = { λ s. IsSession V.made (past_of s.subject s.nest.value s.recipe.value s.search s.events.items) s.search s.cells.items s.owed s.counted (arc_value s.current) (vec_capacity s.events) };
}

impl<V: Made + Drop> Session<V> {
    /// A session without events, whose current version is the original.
    pub fn start(
        alloc: Global,
        subject: u32,
        nest: &Nest,
        recipe: &Recipe,
        grid: &Grid,
        repeat: u32,
        original: Arc<V>,
    ) -> Result<Session<V>, AllocError>
        requires repeat { (1 ≤ repeat) × (repeat ≤ 9) }
        requires original { V.made (arc_value original) ≡ original_made
            (record {
              subject = subject;
              theme = record { nest = nest.now; recipe = recipe.now; grid = grid.now.params; repeat = repeat };
              events = [];
            }) }
        ensures { IfOk result (λ s. s ≡ record {
          subject = subject;
          theme = record { nest = nest.now; recipe = recipe.now; grid = grid.now.params; repeat = repeat };
          events = [];
        }) }
    {
        Ok(Session {
            subject,
            nest: Snapshot::of(nest),
            recipe: Snapshot::of(recipe),
            search: Search::start(alloc, grid, repeat)?,
            cells: Vec::new(alloc),
            owed: 0,
            counted: 0,
            current: original,
            events: Vec::new(alloc),
        })
    }

    /// Claims the least open trial. It takes the memory that `built` will need.
    pub fn claim(&mut self, alloc: Global, builder: u32) -> Result<Job, ClaimError>
        ensures reply { ClaimReply self.old result }
        ensures after { self.new ≡ after self.old (added_by_claim builder result) }
        ensures job { IfOk result (λ j. (j.trial < trials self.new.theme self.new.events)
            × (j.point ≡ point_at (game self.new.theme self.new.events) j.trial)) }
    {
        let trials = self.search.trials();
        let trial = self.cells.len() as u32;
        if trial >= trials {
            return Err(ClaimError::NoJob);
        }
        let point = List::from_slice(alloc, self.search.point_of(trial))?;
        self.cells.reserve(1)?;
        self.search.reserve(self.owed + 1)?;
        self.events.reserve(self.owed as usize + 2)?;
        self.cells.push_reserved(Cell::Claimed(builder));
        self.owed += 1;
        self.events.push_reserved(Event::Claim { builder, trial });
        Ok(Job { trial, point })
    }

    /// Whether the builder claimed the trial and recorded no build of it.
    fn is_claimed(&self, builder: u32, trial: u32) -> bool
        ensures { result ≡ is_claimed_by self.now.theme self.now.events builder trial }
    {
        if trial as usize >= self.cells.len() {
            return false;
        }
        let cell = &self.cells[trial as usize];
        cell.is_claimed_by(builder)
    }

    /// Records what came of a build. It takes no memory.
    pub fn built(&mut self, builder: u32, trial: u32, outcome: Built<V>) -> Result<(), NotClaimed>
        requires { BuiltFits V.made self.old trial outcome }
        ensures reply { BuiltReply self.old builder trial result }
        ensures after { self.new ≡ after self.old (added_by_built builder trial outcome result) }
    {
        if !self.is_claimed(builder, trial) {
            return Err(NotClaimed { trial });
        }
        match outcome {
            Built::Good(variant) => self.built_good(builder, trial, variant),
            Built::Refused(cause) => self.built_refused(builder, trial, cause),
        }
        Ok(())
    }

    fn built_good(&mut self, builder: u32, trial: u32, variant: Arc<V>)
        requires claimed { is_claimed_by self.old.theme self.old.events builder trial ≡ true }
        requires made { V.made (arc_value variant) ≡ trial_made self.old trial }
        ensures { self.new ≡ after self.old (Good builder trial ∷ []) }
    {
        self.cells[trial as usize] = Cell::Built(variant, None);
        self.owed -= 1;
        self.counted += 1;
        self.events.push_reserved(Event::Good { builder, trial });
    }

    fn built_refused(&mut self, builder: u32, trial: u32, cause: Refusal)
        requires claimed { is_claimed_by self.old.theme self.old.events builder trial ≡ true }
        ensures { self.new ≡ after self.old (Refused builder trial cause ∷ []) }
    {
        let Ok(()) = self.search.enter(trial, Outcome::Refused) else {
            unreachable!()
        };
        self.cells[trial as usize] = Cell::Done;
        self.owed -= 1;
        self.events.push_reserved(Event::Refused {
            builder,
            trial,
            cause,
        });
    }

    /// How much has come of the session: good builds, versions, leaves, and reports that leave
    /// their trial pending.
    pub fn news(&self) -> u64
        ensures { result ≡ news self.now.events }
    {
        self.counted + self.search.versions() as u64
    }

    /// The search on the session's entries.
    pub fn search(&self) -> &Search
        ensures { result.now
            ≡ record (searched self.now.theme self.now.events) { spare = result.now.spare } }
    {
        &self.search
    }

    /// An event by its place in the history.
    pub fn event(&self, i: u32) -> Option<&Event>
        ensures { option_copied result ≡ slice_get self.now.events i }
    {
        self.events.get(i as usize)
    }

    /// The trial that the client holds.
    fn held_by(&self, client: u32) -> Option<u32>
        ensures { result ≡ holds self.now.theme self.now.events client }
    {
        // It bounds the number of cells.
        let _ = self.search.trials();
        for trial in self.search.first_waiting() as usize..self.cells.len() {
            let cell = &self.cells[trial];
            if cell.is_held_by(client) {
                return Some(trial as u32);
            }
        }
        None
    }

    /// The least trial that is built, pending and held by nobody.
    fn free(&self) -> Option<u32>
        ensures { result ≡ first_trial self.now.theme self.now.events (is_free self.now.theme self.now.events) }
    {
        // It bounds the number of cells.
        let _ = self.search.trials();
        for trial in self.search.first_waiting() as usize..self.cells.len() {
            let cell = &self.cells[trial];
            if cell.is_free() {
                return Some(trial as u32);
            }
        }
        None
    }

    /// Ends the client's lease, if it has one. It takes no memory.
    pub fn leave(&mut self, client: u32) -> bool
        ensures reply { result ≡ is_some (holds self.old.theme self.old.events client) }
        ensures after { self.new ≡ after self.old (added_by_leave self.old client) }
    {
        let Some(trial) = self.held_by(client) else {
            return false;
        };
        self.release(client, trial);
        true
    }

    fn release(&mut self, client: u32, trial: u32)
        requires held { holds self.old.theme self.old.events client ≡ Some trial }
        ensures { self.new ≡ after self.old (Leave client trial ∷ []) }
    {
        let cell = &mut self.cells[trial as usize];
        cell.lease(None);
        self.owed -= 1;
        self.counted += 1;
        self.events.push_reserved(Event::Leave { client, trial });
    }

    /// Leases a trial to the client, or gives it the current version where it holds none and none
    /// is free. It takes the memory that the report or the leave will need.
    pub fn fetch(&mut self, _alloc: Global, client: u32) -> Result<Fetched<V>, AllocError>
        ensures reply { FetchReply V.made self.old client result }
        ensures after { self.new ≡ after self.old (added_by_fetch client result) }
    {
        match self.offer(client) {
            Some(trial) => self.fetch_trial(client, trial),
            None => self.fetch_current(client),
        }
    }

    /// The trial that a fetch gives.
    fn offer(&self, client: u32) -> Option<u32>
        ensures { result ≡ fetch_gives self.now.theme self.now.events client }
    {
        match self.held_by(client) {
            Some(trial) => Some(trial),
            None => self.free(),
        }
    }

    fn variant_of(&self, trial: u32) -> Result<Arc<V>, AllocError>
        requires { is_built self.now.theme self.now.events trial ≡ true }
        ensures { IfOk result (λ v. V.made (arc_value v) ≡ trial_made self.now trial) }
    {
        let cell = &self.cells[trial as usize];
        match cell {
            Cell::Built(variant, _) => Arc::try_clone(variant),
            Cell::Claimed(_) => unreachable!(),
            Cell::Done => unreachable!(),
        }
    }

    fn fetch_trial(&mut self, client: u32, trial: u32) -> Result<Fetched<V>, AllocError>
        requires { fetch_gives self.old.theme self.old.events client ≡ Some trial }
        ensures reply { FetchReply V.made self.old client result }
        ensures after { self.new ≡ after self.old (added_by_fetch client result) }
    {
        let news = self.news();
        let variant = self.variant_of(trial)?;
        let _ = self.search.trials();
        self.search.reserve(self.owed + 1)?;
        self.events.reserve(self.owed as usize + 2)?;
        let cell = &mut self.cells[trial as usize];
        let owes = cell.owes();
        cell.lease(Some(client));
        self.owed = self.owed + 1 - owes;
        self.events.push_reserved(Event::Fetch {
            client,
            trial: Some(trial),
            version: 0,
        });
        Ok(Fetched::Trial {
            trial,
            variant,
            news,
        })
    }

    fn fetch_current(&mut self, client: u32) -> Result<Fetched<V>, AllocError>
        requires { fetch_gives self.old.theme self.old.events client ≡ None }
        ensures reply { FetchReply V.made self.old client result }
        ensures after { self.new ≡ after self.old (added_by_fetch client result) }
    {
        let news = self.news();
        let variant = Arc::try_clone(&self.current)?;
        let version = self.search.versions();
        self.events.reserve(self.owed as usize + 1)?;
        self.events.push_reserved(Event::Fetch {
            client,
            trial: None,
            version,
        });
        Ok(Fetched::Current {
            version,
            variant,
            news,
        })
    }

    /// Whether the client holds the trial.
    fn is_held(&self, client: u32, trial: u32) -> bool
        ensures { result ≡ is_held_by self.now.theme self.now.events client trial }
    {
        if trial as usize >= self.cells.len() {
            return false;
        }
        let cell = &self.cells[trial as usize];
        cell.is_held_by(client)
    }

    /// Takes the cost that a client measured of the trial that it holds. It takes no memory.
    pub fn report(&mut self, client: u32, trial: u32, call: u32, cost: u64) -> Result<(), NotLeased>
        ensures reply { ReportReply self.old client trial result }
        ensures after { self.new ≡ after self.old
            (added_by_report self.old client trial call cost result) }
    {
        if !self.is_held(client, trial) {
            return Err(NotLeased { trial });
        }
        let left = self.left_after(client, trial);
        if left > 0 {
            self.measured(client, trial, call, cost, left);
        } else {
            self.completed(client, trial, call, cost);
        }
        Ok(())
    }

    /// How many measurements are missing after one more.
    fn left_after(&self, client: u32, trial: u32) -> u32
        requires { is_held_by self.now.theme self.now.events client trial ≡ true }
        ensures { result ≡ left_after self.now.theme self.now.events trial }
    {
        self.search.left_of(trial) - 1
    }

    fn measured(&mut self, client: u32, trial: u32, call: u32, cost: u64, left: u32)
        requires held { is_held_by self.old.theme self.old.events client trial ≡ true }
        requires left { left ≡ left_after self.old.theme self.old.events trial }
        requires some { 0 < left }
        ensures { self.new ≡ after self.old (Report client trial call cost left ∷ []) }
    {
        let Ok(()) = self.search.enter(trial, Outcome::Cost(cost)) else {
            unreachable!()
        };
        let cell = &mut self.cells[trial as usize];
        cell.lease(None);
        self.owed -= 1;
        self.counted += 1;
        self.events.push_reserved(Event::Report {
            client,
            trial,
            call,
            cost,
            left,
        });
    }

    fn completed(&mut self, client: u32, trial: u32, call: u32, cost: u64)
        requires held { is_held_by self.old.theme self.old.events client trial ≡ true }
        requires left { left_after self.old.theme self.old.events trial ≡ 0 }
        ensures { self.new ≡ after self.old (Report client trial call cost 0 ∷ []) }
    {
        let versions = self.search.versions();
        let Ok(()) = self.search.enter(trial, Outcome::Cost(cost)) else {
            unreachable!()
        };
        let is_version = versions < self.search.versions();
        let cell = replace(&mut self.cells[trial as usize], Cell::Done);
        renew(&mut self.current, cell, is_version);
        self.owed -= 1;
        self.events.push_reserved(Event::Report {
            client,
            trial,
            call,
            cost,
            left: 0,
        });
    }

    /// Tells a caller that the history is legal, as that of each session is. It does nothing.
    pub fn known(&self)
        ensures { is_legal self.now.theme self.now.events ≡ true }
    {
        let _ = self.search.trials();
    }
}
