//! A builder's work on a row of sessions.
ghost use Rattle.std.specs.Prelude.{◌≡◌, ◌+◌, ◌<◌, ◌≤◌, ℕ, List, length};
ghost use Rattle.ch_book.specs.Books.{left_of};
ghost use Rattle.ch_builders.specs.Work.{MayWork, RowWorked, WorkedAt, Works, turns_of};
ghost use Rattle.ch_seats.specs.Walk.{Row};

use crate::job::{Outcome, work_on};
use ch_book::{Book, Seat};
use ch_io::Gate;
use ch_seats::{Bench, Worker};
use ch_session::Made;
use crossbeam_channel::Receiver;
use std::alloc::Global;
use std::sync::Wait;

/// So many turns are kept for the end: two for each point that a grid may have, and as many again.
const KEPT: u64 = 262144;

/// A builder with what it works with: hints tell it where a trial may be open, and it passes the
/// gate before and after each build.
#[derive(Drop)]
pub struct Builder<'a, R, B, G> {
    pub rt: &'a R,
    pub alloc: Global,
    pub bench: &'a B,
    pub hints: &'a Receiver<u32>,
    pub gate: &'a G,
    pub number: u32,
}

fn work_at<V: Made + Drop, R: Wait, B: Bench<V>, G: Gate>(
    builder: &Builder<'_, R, B, G>,
    book: &Book<V>,
    seat: &mut Seat<V>,
    session: u32,
    floor: u64,
) -> Outcome
    requires number { builder.now.number < 200 }
    requires floor { 0 < floor }
    requires works { Works (B.means builder.now.bench.now) builder.now.number session book.now
        seat.old }
    ensures left { floor ≤ left_of seat.old + 1 → floor ≤ left_of seat.new + 1 }
    ensures more { result ≡ Outcome.More → (left_of seat.new ≤ floor)
        × (turns_of builder.now.number seat.old ≤ turns_of builder.now.number seat.new) }
    ensures worked { WorkedAt (B.means builder.now.bench.now) builder.now.number result session
        book.now seat.new }
{
    let at = Worker {
        rt: builder.rt,
        alloc: builder.alloc,
        bench: builder.bench,
        book,
        session,
        number: builder.number,
    };
    work_on(&at, seat, floor, builder.gate)
}

/// Works where a hint says, until the hints are closed, and then on each session once more until no
/// trial is open there, for which its turns suffice. True where it found no memory, and only there.
pub fn work<V: Made + Drop, R: Wait, B: Bench<V>, G: Gate>(
    builder: &Builder<'_, R, B, G>,
    books: &[Book<V>],
    seats: &mut [Seat<V>],
) -> bool
    requires number { builder.now.number < 200 }
    requires few { length books.now < 65536 }
    requires works { Row (MayWork (B.means builder.now.bench.now) builder.now.number) books.now
        seats.old }
    ensures worked { RowWorked (B.means builder.now.bench.now) builder.now.number result books.now
        seats.new }
{
    for _ in builder.rt.forever() {
        let Ok(session) = builder.hints.recv(builder.rt) else {
            break;
        };
        let i = session as usize;
        if i < books.len() {
            let seat = &mut seats[i];
            match work_at(builder, &books[i], seat, session, KEPT) {
                Outcome::Memory => return true,
                Outcome::Done => {}
                Outcome::More => {}
            }
        }
    }
    for i in 0..books.len() {
        let seat = &mut seats[i];
        match work_at(builder, &books[i], seat, i as u32, 1) {
            Outcome::Done => {}
            Outcome::Memory => return true,
            Outcome::More => unreachable!(),
        }
    }
    false
}
