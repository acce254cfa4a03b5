//! A builder's work on one session.
ghost use Rattle.std.specs.Prelude.{◌≡◌, ◌+◌, ◌<◌, ◌≤◌, ℕ, List};
ghost use Rattle.ch_book.specs.Books.{left_of, owns, seen};
ghost use Rattle.ch_builders.specs.Work.{Worked, turns_of};
ghost use Rattle.ch_conduct.specs.Conduct.{Builds};
ghost use Rattle.ch_conduct.specs.Meaning.{judge_of};
ghost use Rattle.ch_seats.specs.Seated.{IsBook, Sits, theme_in};
ghost use Rattle.ch_turn.specs.Holdings.{own_entries};

use ch_book::Seat;
use ch_io::{Gate, Place};
use ch_seats::{Bench, Worker};
use ch_session::{ClaimError, Made};
use std::sync::Wait;

/// How the work on a session stands.
#[derive(Clone, Copy, Debug, PartialEq, Eq)]
pub enum Outcome {
    /// A claim met no open trial.
    Done,
    /// There may be more to do.
    More,
    /// There was no memory.
    Memory,
}

/// One claim, and the build of its job.
fn work_once<V: Made + Drop, R: Wait, B: Bench<V>, G: Gate>(
    at: &Worker<'_, V, R, B>,
    seat: &mut Seat<V>,
    gate: &G,
) -> Outcome
    requires number { at.now.number < 200 }
    requires sits { Sits at.now.number at.now.book.now seat.old }
    requires book { IsBook (B.means at.now.bench.now) at.now.session at.now.book.now }
    requires left { 2 ≤ left_of seat.old }
    requires builds { Builds (theme_in at.now.book.now) (judge_of (B.means at.now.bench.now)
        at.now.session)
        at.now.number (seen seat.old) (own_entries at.now.number (owns seat.old)) }
    ensures sits { Sits at.now.number at.now.book.now seat.new }
    ensures left { left_of seat.old ≤ left_of seat.new + 2 }
    ensures kept { result ≡ Outcome.More → turns_of at.now.number seat.old ≤ turns_of at.now.number
        seat.new }
    ensures work { Worked (theme_in at.now.book.now) (judge_of (B.means at.now.bench.now)
        at.now.session)
        at.now.number (seen seat.new) (own_entries at.now.number (owns seat.new)) result }
{
    let session = at.session;
    match at.claim(seat, at.number) {
        Err(ClaimError::Memory) => Outcome::Memory,
        Err(ClaimError::NoJob) => Outcome::Done,
        Ok(job) => {
            let trial = job.trial;
            gate.pass(Place::BeforeBuild { session, trial });
            match at.build(seat, at.number, job) {
                Err(_) => Outcome::Memory,
                Ok(_) => {
                    gate.pass(Place::Built { session, trial });
                    Outcome::More
                }
            }
        }
    }
}

/// Works on one session until no trial is open, while more than `floor` turns are left. A round
/// that goes on takes no turn but for its events.
pub fn work_on<V: Made + Drop, R: Wait, B: Bench<V>, G: Gate>(
    at: &Worker<'_, V, R, B>,
    seat: &mut Seat<V>,
    floor: u64,
    gate: &G,
) -> Outcome
    requires number { at.now.number < 200 }
    requires floor { 1 ≤ floor }
    requires sits { Sits at.now.number at.now.book.now seat.old }
    requires book { IsBook (B.means at.now.bench.now) at.now.session at.now.book.now }
    requires builds { Builds (theme_in at.now.book.now) (judge_of (B.means at.now.bench.now)
        at.now.session)
        at.now.number (seen seat.old) (own_entries at.now.number (owns seat.old)) }
    ensures sits { Sits at.now.number at.now.book.now seat.new }
    ensures left { floor ≤ left_of seat.old + 1 → floor ≤ left_of seat.new + 1 }
    ensures more { result ≡ Outcome.More → (left_of seat.new ≤ floor)
        × (turns_of at.now.number seat.old ≤ turns_of at.now.number seat.new) }
    ensures work { Worked (theme_in at.now.book.now) (judge_of (B.means at.now.bench.now)
        at.now.session)
        at.now.number (seen seat.new) (own_entries at.now.number (owns seat.new)) result }
{
    for _ in at.rt.forever() {
        if seat.left() <= floor {
            return Outcome::More;
        }
        match work_once(at, seat, gate) {
            Outcome::More => {}
            Outcome::Done => return Outcome::Done,
            Outcome::Memory => return Outcome::Memory,
        }
    }
    unreachable!()
}
