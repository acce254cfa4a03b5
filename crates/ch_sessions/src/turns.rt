//! Two clients in threads of their own that measure by turns: each waits for the news that the
//! other's report makes.

ghost use Rattle.std.specs.Prelude.{◌≡◌, ◌≢◌, ◌+◌, ◌<◌, ◌≤◌, ℕ};
ghost use Rattle.ch_book.specs.Books.{Holds, left_of, number_of};
ghost use Rattle.ch_sessions.specs.Desks.{IsFirst, IsSeat, IsStill, SeatFits};

use crate::script::Alternation;
use ch_book::{Book, Seat};
use ch_session::{Fetched, Made};
use std::alloc::Global;
use std::sync::Wait;
use std::thread;
use std::thread::{Threads, join};

/// How many turns a seat is given.
pub(crate) const SEAT_TURNS: u64 = 10_000;

/// How often the news are read in vain before a client gives up, so that the program ends.
const LOOKS: u32 = 20_000_000;

/// When a client measures: so often, first at these news, and then each time that they have risen
/// by two. Each of its costs is one below the one before.
#[derive(Clone, Copy)]
struct Pace {
    start: u64,
    times: u32,
    cost: u64,
}

/// Waits until the news are so many, for as long as it takes to read them very often.
fn has_news<V: Made + Drop>(book: &Book<V>, seat: &mut Seat<V>, wanted: u64) -> bool
    requires { SeatFits book.now seat.old }
    ensures { IsStill book.now seat.old seat.new }
{
    for look in 0..LOOKS {
        if book.news(seat) >= wanted {
            return true;
        }
        thread::yield_now();
    }
    false
}

/// Fetches, and reports where it got a trial.
fn measure<V: Made + Drop, R: Wait>(
    rt: &R,
    alloc: Global,
    book: &Book<V>,
    seat: &mut Seat<V>,
    call: u32,
    cost: u64,
) -> bool
    requires { SeatFits book.now seat.old }
    ensures { IsStill book.now seat.old seat.new }
{
    let client = seat.number();
    if client >= 200 || seat.left() < 2 {
        return false;
    }
    let Ok(Fetched::Trial { trial, .. }) = book.fetch(rt, alloc, seat, client) else {
        return false;
    };
    let cost = cost.saturating_sub(u64::from(call));
    book.report(rt, seat, client, trial, call, cost).is_ok()
}

/// One client's part.
fn measure_by_turns<V: Made + Drop, R: Wait>(
    rt: &R,
    alloc: Global,
    book: &Book<V>,
    mut seat: Seat<V>,
    pace: Pace,
) -> Seat<V>
    requires { SeatFits book.now seat }
    ensures { IsStill book.now seat result }
{
    let mut wanted = pace.start;
    for call in 0..pace.times {
        if !has_news(book, &mut seat, wanted)
            || !measure(rt, alloc, book, &mut seat, call + 1, pace.cost)
        {
            return seat;
        }
        wanted = wanted.saturating_add(2);
    }
    seat
}

/// A seat with this number, which the first seat holds, and with so many of its turns.
pub(crate) fn cut<V: Made + Drop>(
    alloc: Global,
    book: &Book<V>,
    rest: &mut Seat<V>,
    number: u32,
    turns: u64,
) -> Seat<V>
    requires rest { IsFirst book.now rest.old }
    requires number { (number < 200) × Holds rest.old number }
    requires turns { turns ≤ left_of rest.old }
    ensures rest { IsFirst book.now rest.new }
    ensures turns { left_of rest.new + turns ≡ left_of rest.old }
    ensures others { (n : ℕ) → Holds rest.old n → n ≢ number → Holds rest.new n }
    ensures seat { IsSeat book.now number result }
{
    let Ok(seat) = book.split(alloc, rest, number, turns) else {
        unreachable!()
    };
    seat
}

/// The seat is no longer needed.
pub(crate) fn take_in<V: Made + Drop>(book: &Book<V>, rest: &mut Seat<V>, seat: Seat<V>)
    requires rest { IsFirst book.now rest.old }
    requires seat { SeatFits book.now seat }
    ensures rest { IsFirst book.now rest.new }
    ensures ours { (n : ℕ) → Holds rest.old n → Holds rest.new n }
    ensures theirs { Holds rest.new (number_of seat) }
{
    // It tells that the seat holds its own number.
    let _ = seat.number();
    book.join(rest, seat);
}

/// The news, read through the first seat.
fn first_news<V: Made + Drop>(book: &Book<V>, rest: &mut Seat<V>) -> u64
    requires { IsFirst book.now rest.old }
    ensures rest { IsFirst book.now rest.new }
    ensures held { (n : ℕ) → Holds rest.old n → Holds rest.new n }
{
    book.news(rest)
}

/// Starts the two clients, and takes their seats in again. Says by how much the news have risen.
pub(crate) fn alternate<V: Made + Drop + Send + Sync, R: Threads + Wait + Sync>(
    rt: &R,
    alloc: Global,
    book: &Book<V>,
    rest: &mut Seat<V>,
    turns: Alternation,
) -> u64
    requires rest { IsFirst book.now rest.old }
    requires small { (turns.first < 200) × (turns.second < 200) }
    requires apart { turns.first ≢ turns.second }
    requires held { Holds rest.old turns.first × Holds rest.old turns.second }
    requires turns { 20000 ≤ left_of rest.old }
    ensures rest { IsFirst book.now rest.new }
    ensures held { (n : ℕ) → Holds rest.old n → Holds rest.new n }
{
    let first = cut(alloc, book, rest, turns.first, SEAT_TURNS);
    let second = cut(alloc, book, rest, turns.second, SEAT_TURNS);
    let start = first_news(book, rest);
    let early = Pace {
        start,
        times: turns.times,
        cost: turns.cost,
    };
    let late = Pace {
        start: start.saturating_add(1),
        times: turns.times,
        cost: turns.cost,
    };
    let (first, second) = join(
        rt,
        move || -> Seat<V>
            requires { SeatFits book.now first }
            ensures { IsStill book.entry.now first result }
        { measure_by_turns(rt, alloc, book, first, early) },
        move || -> Seat<V>
            requires { SeatFits book.now second }
            ensures { IsStill book.entry.now second result }
        { measure_by_turns(rt, alloc, book, second, late) },
    );
    take_in(book, rest, first);
    take_in(book, rest, second);
    first_news(book, rest).saturating_sub(start)
}
