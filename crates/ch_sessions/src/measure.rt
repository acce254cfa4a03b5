//! How long calls of a book take, by one thread and by four, beside what the session does. It is
//! run by hand.

ghost use Rattle.std.specs.Prelude.{◌≤◌, ◌*◌, ◌^◌};
ghost use Rattle.ch_book.specs.Books.{HoldsAll, left_of};
ghost use Rattle.ch_sessions.specs.Desks.{IsClient, IsFirst};

use crate::plan::Course;
use crate::turns::cut;
use anyhow::Result;
use ch_affine::List;
use ch_book::{Book, Seat};
use ch_grid::Param;
use ch_session::Made;
use std::alloc::{AllocError, Global};
use std::rt::Clock;
use std::sync::Wait;
use std::thread::{Threads, join};
use std::time::Instant;

/// What each thread does, and how often. It adds no event, so that the history stays short.
#[derive(Clone, Copy)]
enum Work {
    /// A client that holds nothing leaves: one turn, in which the session has nothing to do.
    Leave(u32),
    /// Reads the news.
    News(u32),
}

/// The turns of each client's seat.
const CLIENT_TURNS: u64 = 1 << 32;

/// The turns that are taken of a book.
const TURNS: u64 = 1 << 40;

fn leave_often<V: Made + Drop, R: Wait>(rt: &R, book: &Book<V>, mut seat: Seat<V>, count: u32)
    requires { IsClient book.now seat }
{
    let client = seat.number();
    for _call in 0..count {
        if seat.left() == 0 {
            return;
        }
        book.leave(rt, &mut seat, client);
    }
}

fn read_often<V: Made + Drop>(book: &Book<V>, mut seat: Seat<V>, count: u32)
    requires { IsClient book.now seat }
{
    for _call in 0..count {
        book.news(&mut seat);
    }
}

fn work_often<V: Made + Drop, R: Wait>(rt: &R, book: &Book<V>, seat: Seat<V>, work: Work)
    requires { IsClient book.now seat }
{
    match work {
        Work::Leave(count) => leave_often(rt, book, seat, count),
        Work::News(count) => read_often(book, seat, count),
    }
}

fn on_one_thread<V: Made + Drop, R: Wait>(
    rt: &R,
    alloc: Global,
    book: &Book<V>,
    mut rest: Seat<V>,
    work: Work,
)
    requires rest { IsFirst book.now rest × HoldsAll rest }
    requires turns { 2 ^ 32 ≤ left_of rest }
{
    let seat = cut(alloc, book, &mut rest, 0, CLIENT_TURNS);
    work_often(rt, book, seat, work);
}

fn on_two_threads<V: Made + Drop + Send + Sync, R: Threads + Wait + Sync>(
    rt: &R,
    book: &Book<V>,
    one: Seat<V>,
    other: Seat<V>,
    work: Work,
)
    requires one { IsClient book.now one }
    requires other { IsClient book.now other }
{
    join(
        rt,
        move ||
            requires { IsClient book.now one }
        { work_often(rt, book, one, work) },
        move ||
            requires { IsClient book.now other }
        { work_often(rt, book, other, work) },
    );
}

fn on_four_threads<V: Made + Drop + Send + Sync, R: Threads + Wait + Sync>(
    rt: &R,
    alloc: Global,
    book: &Book<V>,
    mut rest: Seat<V>,
    work: Work,
)
    requires rest { IsFirst book.now rest × HoldsAll rest }
    requires turns { 4 * 2 ^ 32 ≤ left_of rest }
{
    let first = cut(alloc, book, &mut rest, 0, CLIENT_TURNS);
    let second = cut(alloc, book, &mut rest, 1, CLIENT_TURNS);
    let third = cut(alloc, book, &mut rest, 2, CLIENT_TURNS);
    let fourth = cut(alloc, book, &mut rest, 3, CLIENT_TURNS);
    join(
        rt,
        move ||
            requires { IsClient book.now first × IsClient book.now second }
        { on_two_threads(rt, book, first, second, work) },
        move ||
            requires { IsClient book.now third × IsClient book.now fourth }
        { on_two_threads(rt, book, third, fourth, work) },
    );
}

/// How many nanoseconds one thread takes, or four of them.
fn book_time<R: Clock + Threads + Wait + Sync>(
    rt: &R,
    alloc: Global,
    course: &Course,
    threads: u32,
    work: Work,
) -> Result<u64> {
    let session = course.start(alloc)?;
    session.known();
    let (book, rest) = Book::start(alloc, session, TURNS)?;
    let start = Instant::now(rt)?;
    if threads == 4 {
        on_four_threads(rt, alloc, &book, rest, work);
    } else {
        on_one_thread(rt, alloc, &book, rest, work);
    }
    let time = start.elapsed(rt)?;
    Ok(u64::try_from(time.as_nanos()).unwrap_or(u64::MAX))
}

/// How many nanoseconds a session without a book takes for it.
fn session_time<R: Clock>(rt: &R, alloc: Global, course: &Course, count: u32) -> Result<u64> {
    let mut session = course.start(alloc)?;
    let start = Instant::now(rt)?;
    for _call in 0..count {
        session.leave(0);
    }
    let time = start.elapsed(rt)?;
    Ok(u64::try_from(time.as_nanos()).unwrap_or(u64::MAX))
}

/// A line: what was timed, and the nanoseconds of a call, with one digit behind the point.
fn put_line(out: &mut String, name: &str, time: u64, calls: u64) -> Result<(), AllocError> {
    let tenths = time.saturating_mul(10) / calls.max(1);
    let whole = tenths / 10;
    let tenth = tenths % 10;
    writeln!(out, "{name}: {whole}.{tenth} ns a call")
}

fn put_session_time<R: Clock>(
    rt: &R,
    alloc: Global,
    course: &Course,
    count: u32,
    out: &mut String,
) -> Result<()> {
    let time = session_time(rt, alloc, course, count)?;
    Ok(put_line(out, "session leave", time, u64::from(count))?)
}

fn put_book_time<R: Clock + Threads + Wait + Sync>(
    rt: &R,
    alloc: Global,
    course: &Course,
    threads: u32,
    work: Work,
    out: &mut String,
) -> Result<()> {
    let time = book_time(rt, alloc, course, threads, work)?;
    let (name, count) = match work {
        Work::Leave(count) => ("book leave", count),
        Work::News(count) => ("book news", count),
    };
    write!(out, "threads {threads} ")?;
    let calls = u64::from(threads) * u64::from(count);
    Ok(put_line(out, name, time, calls)?)
}

/// The grid of the sessions that are timed.
fn small_course(alloc: Global) -> Result<Option<Course>, AllocError> {
    let param = Param {
        low: 0,
        high: 2,
        step: 1,
    };
    Course::of(alloc, List::from_slice(alloc, &[param])?, 1)
}

/// The times of `leave` and `news`, each so often by each thread.
pub(crate) fn times<R: Clock + Threads + Wait + Sync>(
    rt: &R,
    alloc: Global,
    count: u32,
) -> Result<String> {
    let mut out = String::new(alloc);
    if let Some(course) = small_course(alloc)? {
        put_session_time(rt, alloc, &course, count, &mut out)?;
        put_book_time(rt, alloc, &course, 1, Work::Leave(count), &mut out)?;
        put_book_time(rt, alloc, &course, 1, Work::News(count), &mut out)?;
        put_book_time(rt, alloc, &course, 4, Work::Leave(count), &mut out)?;
        put_book_time(rt, alloc, &course, 4, Work::News(count), &mut out)?;
    }
    Ok(out)
}
