//! A seat of a book, with what it knows of the search's points.

ghost use Rattle.std.specs.Prelude.{◌≡◌, ◌<◌, IfOk, IfSome, IsTrue, length, slice_get, Some};
ghost use Rattle.ch_book.specs.Books.{first_of, number_of, seen};
ghost use Rattle.ch_sessions.specs.Desks.{DeskFits, IsBuildBy, IsCaller, IsJob, MayCall, Stays};
ghost use Rattle.ch_sessions.specs.Plans.{IsAbout};

use crate::answer;
use crate::plan::{Course, Plan};
use crate::script::{Build, Call, Report};
use anyhow::Result;
use ch_book::{Book, Seat};
use ch_session::{Built, ClaimError, Fetched, Job, NotClaimed, NotLeased};
use std::alloc::{AllocError, Global};
use std::sync::Wait;

/// A book, and what its session is about.
#[derive(Drop)]
pub(crate) struct Shared {
    pub(crate) course: Course,
    pub(crate) book: Book<Plan>,
}

/// A seat, and the jobs whose points it knows: those of the first simplex, and those that it
/// claimed.
#[derive(Drop)]
pub(crate) struct Desk {
    pub(crate) seat: Seat<Plan>,
    pub(crate) jobs: Vec<Job>,
}

/// What is printed of a call that the seat can't make: it has no turn left, or is another's.
const NO_CALL: &str = "no call of this seat";

impl Desk {
    /// Whether the seat may make a call as this client or builder.
    fn may_call(&self, number: u32) -> bool
        ensures { IsTrue result → MayCall self.now.seat
            × IsCaller (number_of self.now.seat) number }
    {
        let own = self.seat.number();
        self.seat.left() > 0 && own < 200 && (number == own || number == own + 200)
    }

    /// Whether the seat may make a call as this client.
    fn may_call_as_client(&self, client: u32) -> bool
        ensures { IsTrue result → MayCall self.now.seat × (client ≡ number_of self.now.seat) }
    {
        self.seat.left() > 0 && self.seat.number() < 200 && client == self.seat.number()
    }

    fn take_job<R: Wait>(
        &mut self,
        rt: &R,
        alloc: Global,
        shared: &Shared,
        builder: u32,
    ) -> Result<Job, ClaimError>
        requires fits { DeskFits shared.now.book self.old.seat self.old.jobs.items }
        requires call { MayCall self.old.seat × IsCaller (number_of self.old.seat) builder }
        ensures desk { Stays shared.now.book self.old.seat self.new.seat self.new.jobs.items }
        ensures job { IfOk result (IsJob (first_of shared.now.book).theme (seen self.new.seat)) }
    {
        shared.book.claim(rt, alloc, &mut self.seat, builder)
    }

    /// From now on the seat knows the point of the job's trial.
    fn keep(&mut self, _shared: &Shared, job: Job) -> Result<(), AllocError>
        requires fits { DeskFits _shared.now.book self.old.seat self.old.jobs.items }
        requires job { IsJob (first_of _shared.now.book).theme (seen self.old.seat) job }
        ensures { Stays _shared.now.book self.old.seat self.new.seat self.new.jobs.items }
    {
        self.jobs.push(job)?;
        Ok(())
    }

    fn claim<R: Wait>(
        &mut self,
        rt: &R,
        alloc: Global,
        shared: &Shared,
        builder: u32,
    ) -> Result<String>
        requires { DeskFits shared.now.book self.old.seat self.old.jobs.items }
        ensures { Stays shared.now.book self.old.seat self.new.seat self.new.jobs.items }
    {
        if !self.may_call(builder) {
            return Ok(String::from_str(alloc, NO_CALL)?);
        }
        match self.take_job(rt, alloc, shared, builder) {
            Ok(job) => {
                let text = answer::job_text(alloc, &job)?;
                self.keep(shared, job)?;
                Ok(text)
            }
            Err(error) => answer::no_job_text(alloc, error),
        }
    }

    /// The place of the job with this trial.
    fn place_of(&self, trial: u32) -> Option<usize>
        ensures { IfSome result (λ i. (i < length self.now.jobs.items)
            × IfSome (slice_get self.now.jobs.items i) (λ j. j.trial ≡ trial)) }
    {
        for i in 0..self.jobs.len() {
            if self.jobs[i].trial == trial {
                return Some(i);
            }
        }
        None
    }

    /// What is built for a trial whose point the seat knows.
    fn build(
        &self,
        alloc: Global,
        shared: &Shared,
        trial: u32,
        is_good: bool,
    ) -> Result<Option<Built<Plan>>, AllocError>
        requires about { IsAbout shared.now.course (first_of shared.now.book) }
        requires fits { DeskFits shared.now.book self.now.seat self.now.jobs.items }
        ensures { IfOk result (λ o. IfSome o (IsBuildBy shared.now.book self.now.seat trial)) }
    {
        let Some(place) = self.place_of(trial) else {
            return Ok(None);
        };
        let job = &self.jobs[place];
        let outcome = shared.course.build(alloc, job.point.as_slice(), is_good)?;
        Ok(Some(outcome))
    }

    fn put_build<R: Wait>(
        &mut self,
        rt: &R,
        shared: &Shared,
        builder: u32,
        trial: u32,
        outcome: Built<Plan>,
    ) -> Result<(), NotClaimed>
        requires fits { DeskFits shared.now.book self.old.seat self.old.jobs.items }
        requires call { MayCall self.old.seat × IsCaller (number_of self.old.seat) builder }
        requires build { IsBuildBy shared.now.book self.old.seat trial outcome }
        ensures { Stays shared.now.book self.old.seat self.new.seat self.new.jobs.items }
    {
        let book = &shared.book;
        book.built(rt, &mut self.seat, builder, trial, outcome)
    }

    fn built<R: Wait>(
        &mut self,
        rt: &R,
        alloc: Global,
        shared: &Shared,
        build: Build,
    ) -> Result<String, AllocError>
        requires about { IsAbout shared.now.course (first_of shared.now.book) }
        requires fits { DeskFits shared.now.book self.old.seat self.old.jobs.items }
        ensures { Stays shared.now.book self.old.seat self.new.seat self.new.jobs.items }
    {
        let Build {
            builder,
            trial,
            is_good,
        } = build;
        if !self.may_call(builder) {
            return String::from_str(alloc, NO_CALL);
        }
        let Some(outcome) = self.build(alloc, shared, trial, is_good)? else {
            return String::from_str(alloc, "no such trial");
        };
        let reply = self.put_build(rt, shared, builder, trial, outcome);
        answer::built_text(alloc, reply)
    }

    fn take_variant<R: Wait>(
        &mut self,
        rt: &R,
        alloc: Global,
        shared: &Shared,
        client: u32,
    ) -> Result<Fetched<Plan>, AllocError>
        requires fits { DeskFits shared.now.book self.old.seat self.old.jobs.items }
        requires call { MayCall self.old.seat × (client ≡ number_of self.old.seat) }
        ensures { Stays shared.now.book self.old.seat self.new.seat self.new.jobs.items }
    {
        shared.book.fetch(rt, alloc, &mut self.seat, client)
    }

    fn fetch<R: Wait>(
        &mut self,
        rt: &R,
        alloc: Global,
        shared: &Shared,
        client: u32,
    ) -> Result<String, AllocError>
        requires { DeskFits shared.now.book self.old.seat self.old.jobs.items }
        ensures { Stays shared.now.book self.old.seat self.new.seat self.new.jobs.items }
    {
        if !self.may_call_as_client(client) {
            return String::from_str(alloc, NO_CALL);
        }
        let fetched = self.take_variant(rt, alloc, shared, client)?;
        answer::fetched_text(alloc, fetched)
    }

    fn put_cost<R: Wait>(
        &mut self,
        rt: &R,
        shared: &Shared,
        report: Report,
    ) -> Result<(), NotLeased>
        requires fits { DeskFits shared.now.book self.old.seat self.old.jobs.items }
        requires call { MayCall self.old.seat × (report.client ≡ number_of self.old.seat) }
        ensures { Stays shared.now.book self.old.seat self.new.seat self.new.jobs.items }
    {
        let Report {
            client,
            trial,
            call,
            cost,
        } = report;
        let book = &shared.book;
        book.report(rt, &mut self.seat, client, trial, call, cost)
    }

    fn report<R: Wait>(
        &mut self,
        rt: &R,
        alloc: Global,
        shared: &Shared,
        report: Report,
    ) -> Result<String, AllocError>
        requires { DeskFits shared.now.book self.old.seat self.old.jobs.items }
        ensures { Stays shared.now.book self.old.seat self.new.seat self.new.jobs.items }
    {
        if !self.may_call_as_client(report.client) {
            return String::from_str(alloc, NO_CALL);
        }
        let reply = self.put_cost(rt, shared, report);
        answer::report_text(alloc, reply)
    }

    fn end_lease<R: Wait>(&mut self, rt: &R, shared: &Shared, client: u32) -> bool
        requires fits { DeskFits shared.now.book self.old.seat self.old.jobs.items }
        requires call { MayCall self.old.seat × (client ≡ number_of self.old.seat) }
        ensures { Stays shared.now.book self.old.seat self.new.seat self.new.jobs.items }
    {
        shared.book.leave(rt, &mut self.seat, client)
    }

    fn leave<R: Wait>(
        &mut self,
        rt: &R,
        alloc: Global,
        shared: &Shared,
        client: u32,
    ) -> Result<String, AllocError>
        requires { DeskFits shared.now.book self.old.seat self.old.jobs.items }
        ensures { Stays shared.now.book self.old.seat self.new.seat self.new.jobs.items }
    {
        if !self.may_call_as_client(client) {
            return String::from_str(alloc, NO_CALL);
        }
        let has_left = self.end_lease(rt, shared, client);
        answer::leave_text(alloc, has_left)
    }

    fn read_news(&mut self, shared: &Shared) -> u64
        requires { DeskFits shared.now.book self.old.seat self.old.jobs.items }
        ensures { Stays shared.now.book self.old.seat self.new.seat self.new.jobs.items }
    {
        shared.book.news(&mut self.seat)
    }

    fn news(&mut self, alloc: Global, shared: &Shared) -> Result<String, AllocError>
        requires { DeskFits shared.now.book self.old.seat self.old.jobs.items }
        ensures { Stays shared.now.book self.old.seat self.new.seat self.new.jobs.items }
    {
        let news = self.read_news(shared);
        format!(in alloc; "{news}")
    }

    /// What a call of this seat's client or builder is answered.
    pub(crate) fn answer<R: Wait>(
        &mut self,
        rt: &R,
        alloc: Global,
        shared: &Shared,
        call: Call,
    ) -> Result<String>
        requires about { IsAbout shared.now.course (first_of shared.now.book) }
        requires fits { DeskFits shared.now.book self.old.seat self.old.jobs.items }
        ensures { Stays shared.now.book self.old.seat self.new.seat self.new.jobs.items }
    {
        match call {
            Call::Claim { builder } => self.claim(rt, alloc, shared, builder),
            Call::Built(build) => Ok(self.built(rt, alloc, shared, build)?),
            Call::Fetch { client } => Ok(self.fetch(rt, alloc, shared, client)?),
            Call::Report(report) => Ok(self.report(rt, alloc, shared, report)?),
            Call::Leave { client } => Ok(self.leave(rt, alloc, shared, client)?),
            Call::News { .. } => Ok(self.news(alloc, shared)?),
            Call::Join { .. } | Call::Alternate(_) => Ok(String::from_str(alloc, NO_CALL)?),
        }
    }
}
