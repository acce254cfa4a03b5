//! Scripts on a book: each client and builder has a seat of its own, from its first call until it
//! is gone.

ghost use Rattle.std.specs.Prelude.{◌≡◌, ◌<◌, ◌≤◌, [], IfOk, IfSome, All, None, length, false};
ghost use Rattle.ch_book.specs.Books.{left_of};
ghost use Rattle.ch_sessions.specs.Desks.{IsJob, IsOut, TableFits};

use crate::answer;
use crate::desk::{Desk, Shared};
use crate::plan::{Course, Plan};
use crate::script::{Alternation, Call, call_of, course_of, seat_of};
use crate::turns::{SEAT_TURNS, alternate, cut, take_in};
use anyhow::Result;
use ch_affine::List;
use ch_book::{Book, Seat};
use ch_session::{Job, Session};
use std::alloc::{AllocError, Global};
use std::sync::Wait;
use std::thread::Threads;

/// A book, the seat that holds what no other one has, and the other ones.
#[derive(Drop)]
pub(crate) struct Table {
    shared: Shared,
    rest: Seat<Plan>,
    desks: Vec<Desk>,
    first: Vec<Job>,
}

/// How many turns may be taken of a book.
const BOOK_TURNS: u64 = 1 << 20;

/// The trials that a session without events has, with their points.
fn first_jobs(alloc: Global, session: &Session<Plan>) -> Result<Vec<Job>, AllocError>
    requires { session.now.events ≡ [] }
    ensures { IfOk result (λ jobs. All (IsJob session.now.theme []) jobs.items) }
{
    let search = session.search();
    let mut jobs = Vec::new(alloc);
    for trial in 0..search.trials() {
        let point = List::from_slice(alloc, search.point_of(trial))?;
        jobs.push(Job { trial, point })?;
    }
    Ok(jobs)
}

fn copied(alloc: Global, jobs: &[Job]) -> Result<Vec<Job>, AllocError>
    ensures { IfOk result (λ copies. copies.items ≡ jobs.now) }
{
    let mut copies = Vec::new(alloc);
    for job in jobs {
        copies.push(Job {
            trial: job.trial,
            point: List::from_slice(alloc, job.point.as_slice())?,
        })?;
    }
    Ok(copies)
}

impl Table {
    /// A book round a session without events, of which no seat is out.
    fn open(alloc: Global, course: Course) -> Result<Table, AllocError>
        ensures { IfOk result (λ t. TableFits t) }
    {
        let session = course.start(alloc)?;
        session.known();
        let first = first_jobs(alloc, &session)?;
        let (book, rest) = Book::start(alloc, session, BOOK_TURNS)?;
        Ok(Table {
            shared: Shared { course, book },
            rest,
            desks: Vec::new(alloc),
            first,
        })
    }

    /// The place of the seat with this number.
    fn place_of(&self, number: u32) -> Option<usize>
        ensures none { result ≡ None → IsOut number self.now.desks.items → ⊥ }
        ensures some { IfSome result (λ i. i < length self.now.desks.items) }
    {
        for place in 0..self.desks.len() {
            if self.desks[place].seat.number() == number {
                return Some(place);
            }
        }
        None
    }

    fn is_out(&self, number: u32) -> bool
        ensures { result ≡ false → IsOut number self.now.desks.items → ⊥ }
    {
        match self.place_of(number) {
            Some(_) => true,
            None => false,
        }
    }

    /// The place of the seat with this number, which is made where there is none yet. None where
    /// there are no turns for it.
    fn seated(&mut self, alloc: Global, number: u32) -> Result<Option<usize>, AllocError>
        requires { TableFits self.old }
        ensures fits { TableFits self.new }
        ensures place { IfOk result (λ place. IfSome place (λ i. i < length self.new.desks.items)) }
    {
        if let Some(place) = self.place_of(number) {
            return Ok(Some(place));
        }
        if number >= 200 || self.rest.left() < SEAT_TURNS {
            return Ok(None);
        }
        Ok(Some(self.sit(alloc, number)?))
    }

    /// Makes a seat with this number, and gives its place.
    fn sit(&mut self, alloc: Global, number: u32) -> Result<usize, AllocError>
        requires fits { TableFits self.old }
        requires new { IsOut number self.old.desks.items → ⊥ }
        requires turns { (number < 200) × (10000 ≤ left_of self.old.rest) }
        ensures fits { TableFits self.new }
        ensures place { IfOk result (λ i. i < length self.new.desks.items) }
    {
        let jobs = copied(alloc, self.first.as_slice())?;
        self.desks.reserve(1)?;
        let seat = cut(alloc, &self.shared.book, &mut self.rest, number, SEAT_TURNS);
        let place = self.desks.len();
        self.desks.push_reserved(Desk { seat, jobs });
        Ok(place)
    }

    fn at_desk<R: Wait>(&mut self, rt: &R, alloc: Global, number: u32, call: Call) -> Result<String>
        requires { TableFits self.old }
        ensures { TableFits self.new }
    {
        let Some(place) = self.seated(alloc, seat_of(number))? else {
            return Ok(String::from_str(alloc, "no seat")?);
        };
        let desk = &mut self.desks[place];
        desk.answer(rt, alloc, &self.shared, call)
    }

    /// The seat's client or builder is gone.
    fn join(&mut self, alloc: Global, number: u32) -> Result<String, AllocError>
        requires { TableFits self.old }
        ensures { TableFits self.new }
    {
        let Some(place) = self.place_of(number) else {
            return String::from_str(alloc, "no seat");
        };
        let text = String::from_str(alloc, "joined")?;
        let Desk { seat, jobs: _ } = self.desks.remove(place);
        take_in(&self.shared.book, &mut self.rest, seat);
        Ok(text)
    }

    fn alternate<R: Threads + Wait + Sync>(
        &mut self,
        rt: &R,
        alloc: Global,
        turns: Alternation,
    ) -> Result<String, AllocError>
        requires { TableFits self.old }
        ensures { TableFits self.new }
    {
        if turns.first >= 200
            || turns.second >= 200
            || turns.first == turns.second
            || self.is_out(turns.first)
            || self.is_out(turns.second)
            || self.rest.left() < 2 * SEAT_TURNS
        {
            return String::from_str(alloc, "no seats");
        }
        let rise = alternate(rt, alloc, &self.shared.book, &mut self.rest, turns);
        answer::turns_text(alloc, turns.times, rise)
    }

    fn answer<R: Threads + Wait + Sync>(
        &mut self,
        rt: &R,
        alloc: Global,
        call: Call,
    ) -> Result<String>
        requires { TableFits self.old }
        ensures { TableFits self.new }
    {
        match call {
            Call::Claim { builder } => self.at_desk(rt, alloc, builder, call),
            Call::Built(build) => self.at_desk(rt, alloc, build.builder, call),
            Call::Fetch { client } => self.at_desk(rt, alloc, client, call),
            Call::Report(report) => self.at_desk(rt, alloc, report.client, call),
            Call::Leave { client } => self.at_desk(rt, alloc, client, call),
            Call::News { seat } => self.at_desk(rt, alloc, seat, call),
            Call::Join { seat } => Ok(self.join(alloc, seat)?),
            Call::Alternate(turns) => Ok(self.alternate(rt, alloc, turns)?),
        }
    }

    /// Takes all seats in, and gives the session.
    fn close(self) -> Session<Plan>
        requires { TableFits self }
    {
        let Table {
            shared,
            rest,
            desks,
            first: _,
        } = self;
        let Shared { course: _, book } = shared;
        let mut rest = rest;
        let mut desks = desks;
        while let Some(desk) = desks.pop() {
            let Desk { seat, jobs: _ } = desk;
            take_in(&book, &mut rest, seat);
        }
        book.close(rest)
    }
}

/// What a script says on a book: a line for each call with its answer, and the history of the
/// closed session.
pub(crate) fn transcript<R: Threads + Wait + Sync>(
    rt: &R,
    alloc: Global,
    script: &str,
) -> Result<String> {
    let mut out = String::new(alloc);
    let Some(course) = course_of(alloc, script)? else {
        return Ok(String::from_str(alloc, "no session\n")?);
    };
    let mut table = Table::open(alloc, course)?;
    for line in script.lines() {
        if let Some(call) = call_of(line) {
            let answer = table.answer(rt, alloc, call)?;
            writeln!(out, "{line}: {answer}")?;
        }
    }
    let session = table.close();
    answer::put_history(alloc, &mut out, &session)?;
    Ok(out)
}
