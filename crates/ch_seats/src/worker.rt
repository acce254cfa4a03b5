//! One client or builder at one session.
ghost use Rattle.std.specs.Prelude.{◌≡◌, ◌+◌, ◌<◌, ◌≤◌, ◌∷◌, [], ℕ, List, Some, IfOk, OnErr};
ghost use Rattle.ch_book.specs.Books.{IsLastOwn, left_of, seen, with_events};
ghost use Rattle.ch_conduct.specs.Conduct.{build_event};
ghost use Rattle.ch_conduct.specs.Meaning.{judge_of};
ghost use Rattle.ch_conduct.specs.Turns.{ReadNews, TookTurn};
ghost use Rattle.ch_seats.specs.Seated.{ClaimedLast, FetchedLast, HasJob, IsBook, IsBuilder, Sits, knows, theme_in};
ghost use Rattle.ch_session.specs.History.{left_after, trials};
ghost use Rattle.ch_session.specs.Replies.{BuiltFits, ClaimReply, FetchReply, added_by_claim, added_by_fetch, added_by_leave};
ghost use Rattle.ch_session.specs.Replies.{build_event as event_of};
ghost use Rattle.ch_session.specs.declared.event.Event.{Event};
ghost use Rattle.ch_session.specs.declared.event.Event.TheVariants.{Claim, Fetch, Report};

use crate::bench::Bench;
use ch_book::{Book, Seat};
use ch_session::{Built, ClaimError, Event, Fetched, Job, Made, Session};
use ch_turn::Listed;
use std::alloc::{AllocError, Global};
use std::sync::Wait;

/// A client or a builder at one session: its number, the session with its book, and what it works
/// with. It has a seat of its own there.
#[derive(Drop)]
pub struct Worker<'a, V: Made + Drop, R, B>
where
    Session<V>: Listed<Entry = Event>,
{
    pub rt: &'a R,
    pub alloc: Global,
    pub bench: &'a B,
    pub book: &'a Book<V>,
    pub session: u32,
    pub number: u32,
}

impl<V: Made + Drop, R: Wait, B: Bench<V>> Worker<'_, V, R, B> {
    /// Fetches a trial or the current version, by one turn.
    pub fn fetch(&self, seat: &mut Seat<V>) -> Result<Fetched<V>, AllocError>
        requires sits { Sits self.now.number self.now.book.now seat.old }
        requires left { 0 < left_of seat.old }
        requires number { self.now.number < 200 }
        ensures sits { Sits self.now.number self.now.book.now seat.new }
        ensures left { left_of seat.new + 1 ≡ left_of seat.old }
        ensures turn { (h : List Event) × TookTurn (theme_in self.now.book.now) self.now.number
            (knows self.now.number seat.old) (knows self.now.number seat.new) h
            (added_by_fetch self.now.number result)
            × FetchReply V.made (with_events self.now.book.now h) self.now.number result }
        ensures last { FetchedLast self.now.number seat.new result }
    {
        self.book.fetch(self.rt, self.alloc, seat, self.number)
    }

    /// Reports what the trial cost that the seat's last event fetched, by one turn.
    pub fn report(&self, seat: &mut Seat<V>, trial: u32, call: u32, cost: u64)
        requires sits { Sits self.now.number self.now.book.now seat.old }
        requires left { 0 < left_of seat.old }
        requires number { self.now.number < 200 }
        requires last { IsLastOwn (Fetch self.now.number (Some trial) 0) seat.old }
        ensures sits { Sits self.now.number self.now.book.now seat.new }
        ensures left { left_of seat.new + 1 ≡ left_of seat.old }
        ensures turn { (h : List Event) × TookTurn (theme_in self.now.book.now) self.now.number
            (knows self.now.number seat.old) (knows self.now.number seat.new) h
            (Report self.now.number trial call cost
            (left_after (theme_in self.now.book.now) h trial) ∷ []) }
    {
        let Ok(()) = self
            .book
            .report(self.rt, seat, self.number, trial, call, cost)
        else {
            unreachable!()
        };
    }

    /// Claims a trial to build, under its number or under 200 and its number, by one turn.
    pub fn claim(&self, seat: &mut Seat<V>, builder: u32) -> Result<Job, ClaimError>
        requires sits { Sits self.now.number self.now.book.now seat.old }
        requires left { 0 < left_of seat.old }
        requires number { self.now.number < 200 }
        requires builder { IsBuilder self.now.number builder }
        ensures sits { Sits self.now.number self.now.book.now seat.new }
        ensures left { left_of seat.new + 1 ≡ left_of seat.old }
        ensures turn { (h : List Event) × TookTurn (theme_in self.now.book.now) self.now.number
            (knows self.now.number seat.old) (knows self.now.number seat.new) h
            (added_by_claim builder result)
            × ClaimReply (with_events self.now.book.now h) result }
        ensures last { ClaimedLast (theme_in self.now.book.now) builder seat.new result }
    {
        self.book.claim(self.rt, self.alloc, seat, builder)
    }

    /// Records what came of the build of the trial that the seat's last event claimed, by one turn.
    fn tell(&self, seat: &mut Seat<V>, builder: u32, trial: u32, outcome: Built<V>)
        requires sits { Sits self.now.number self.now.book.now seat.old }
        requires left { 0 < left_of seat.old }
        requires number { self.now.number < 200 }
        requires builder { IsBuilder self.now.number builder }
        requires last { IsLastOwn (Claim builder trial) seat.old }
        requires trial { trial < trials (theme_in self.now.book.now) (seen seat.old) }
        requires made { BuiltFits V.made (with_events self.now.book.now (seen seat.old)) trial
            outcome }
        ensures sits { Sits self.now.number self.now.book.now seat.new }
        ensures left { left_of seat.new + 1 ≡ left_of seat.old }
        ensures turn { (h : List Event) × TookTurn (theme_in self.now.book.now) self.now.number
            (knows self.now.number seat.old) (knows self.now.number seat.new) h
            (event_of builder trial outcome ∷ []) }
    {
        let Ok(()) = self.book.built(self.rt, seat, builder, trial, outcome) else {
            unreachable!()
        };
    }

    /// Builds the job that the seat's last event claimed, outside of any turn, and records it, by
    /// one turn. It tells whether the recipe is refused there. Where it finds no memory the trial
    /// stays claimed.
    pub fn build(&self, seat: &mut Seat<V>, builder: u32, job: Job) -> Result<bool, AllocError>
        requires sits { Sits self.now.number self.now.book.now seat.old }
        requires book { IsBook (B.means self.now.bench.now) self.now.session self.now.book.now }
        requires left { 0 < left_of seat.old }
        requires number { self.now.number < 200 }
        requires builder { IsBuilder self.now.number builder }
        requires job { HasJob (theme_in self.now.book.now) builder seat.old job }
        ensures sits { Sits self.now.number self.now.book.now seat.new }
        ensures left { left_of seat.old ≤ left_of seat.new + 1 }
        ensures same { OnErr result (seat.new ≡ seat.old) }
        ensures turn { IfOk result (λ refused. (h : List Event)
            × TookTurn (theme_in self.now.book.now) self.now.number
            (knows self.now.number seat.old) (knows self.now.number seat.new) h
            (build_event builder job.trial
            ((judge_of (B.means self.now.bench.now) self.now.session).refusal job.point) ∷ [])) }
    {
        let outcome = self
            .bench
            .build(self.alloc, self.session, job.point.as_slice())?;
        let refused = match &outcome {
            Built::Good(_) => false,
            Built::Refused(_) => true,
        };
        self.tell(seat, builder, job.trial, outcome);
        Ok(refused)
    }

    /// Ends its lease, if it has one, by one turn.
    pub fn leave(&self, seat: &mut Seat<V>)
        requires sits { Sits self.now.number self.now.book.now seat.old }
        requires left { 0 < left_of seat.old }
        requires number { self.now.number < 200 }
        ensures sits { Sits self.now.number self.now.book.now seat.new }
        ensures left { left_of seat.new + 1 ≡ left_of seat.old }
        ensures turn { (h : List Event) × TookTurn (theme_in self.now.book.now) self.now.number
            (knows self.now.number seat.old) (knows self.now.number seat.new) h
            (added_by_leave (with_events self.now.book.now h) self.now.number) }
    {
        self.book.leave(self.rt, seat, self.number);
    }

    /// Reads the news, by one load.
    pub fn news(&self, seat: &mut Seat<V>) -> u64
        requires sits { Sits self.now.number self.now.book.now seat.old }
        ensures sits { Sits self.now.number self.now.book.now seat.new }
        ensures left { left_of seat.new ≡ left_of seat.old }
        ensures read { ReadNews (knows self.now.number seat.old) (knows self.now.number seat.new)
            result }
    {
        self.book.news(seat)
    }
}
