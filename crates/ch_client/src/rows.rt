//! A client's calls on a row of books and seats, one for each session.
ghost use Rattle.std.specs.Prelude.{◌≡◌, ◌+◌, ◌-◌, ◌<◌, ◌++◌, ◌∷◌, [], ℕ, List, length, IfOk, slice_index_or, slice_set, map};
ghost use Rattle.ch_book.specs.Books.{left_of};
ghost use Rattle.ch_client.specs.Arrays.{HaveRun};
ghost use Rattle.ch_client.specs.Stands.{AreThere, LeftOne, RowEnded, RowRests, RowStands};
ghost use Rattle.ch_conduct.specs.Meaning.{Meaning, program_of};
ghost use Rattle.ch_seats.specs.Seated.{Sits};

use crate::call::call_once;
use crate::client::{Client, Notes};
use crate::last::Last;
use ch_book::{Book, Seat};
use ch_conduct::{CallLine, How};
use ch_io::{Gate, Place};
use ch_seats::{Bench, Worker};
use ch_session::Made;
use std::alloc::AllocError;
use std::sync::Wait;

/// The next call of a script of these sessions, after these lines. It tells too whether a build of
/// the client's own was refused.
fn next_call<V: Made + Drop, R: Wait, B: Bench<V>, G: Gate>(
    client: &Client<'_, R, B, G>,
    books: &[Book<V>],
    seats: &mut [Seat<V>],
    notes: &mut Notes<V>,
    sessions: &[u32],
    lines: &[CallLine],
) -> Result<(CallLine, bool), AllocError>
    requires number { client.now.number < 200 }
    requires more { (length lines.now < length sessions.now) × (length sessions.now < 65536) }
    requires there { slice_index_or sessions.now (length lines.now) 0 < length books.now }
    requires program { program_of (B.means client.now.bench.now)
        (slice_index_or sessions.now (length lines.now) 0)
        < length notes.old.arrays.items }
    requires stands { RowStands (B.means client.now.bench.now) client.now.number
        client.now.manner.patient client.now.manner.machine V.made lines.now
        (length sessions.now - length lines.now) books.now seats.old notes.old.lasts.items }
    ensures rests { RowRests (B.means client.now.bench.now) client.now.number 1
        books.now seats.new }
    ensures line { IfOk result (λ r. r.0.session ≡
        slice_index_or sessions.now (length lines.now) 0) }
    ensures stands { IfOk result (λ r. RowStands (B.means client.now.bench.now) client.now.number
        client.now.manner.patient client.now.manner.machine V.made (lines.now ++ r.0 ∷ [])
        (length sessions.now - (length lines.now + 1)) books.now seats.new notes.new.lasts.items) }
    ensures arrays { IfOk result (λ r. notes.new.arrays.items ≡ slice_set notes.old.arrays.items
        (program_of (B.means client.now.bench.now) r.0.session)
        ((B.means client.now.bench.now).run (program_of (B.means client.now.bench.now) r.0.session)
        (slice_index_or notes.old.arrays.items (program_of (B.means client.now.bench.now)
        r.0.session) []))) }
{
    let done = lines.len();
    let session = sessions[done];
    let i = session as usize;
    let at = Worker {
        rt: client.rt,
        alloc: client.alloc,
        bench: client.bench,
        book: &books[i],
        session,
        number: client.number,
    };
    let program = client.bench.program(session) as usize;
    let (how, refused) = call_once(
        &at,
        &mut seats[i],
        &client.manner,
        &mut notes.lasts[i],
        done as u32 + 1,
        &mut notes.arrays[program],
    )?;
    Ok((CallLine { session, how }, refused))
}

/// All calls of a script, one after another.
pub(crate) fn play<V: Made + Drop, R: Wait, B: Bench<V>, G: Gate>(
    client: &Client<'_, R, B, G>,
    books: &[Book<V>],
    seats: &mut [Seat<V>],
    notes: &mut Notes<V>,
    sessions: &[u32],
) -> Result<Vec<CallLine>, AllocError>
    requires number { client.now.number < 200 }
    requires few { length sessions.now < 65536 }
    requires there { AreThere (B.means client.now.bench.now) (length books.now) sessions.now }
    requires arrays { length notes.old.arrays.items ≡ (B.means client.now.bench.now).programs }
    requires stands { RowStands (B.means client.now.bench.now) client.now.number
        client.now.manner.patient client.now.manner.machine V.made [] (length sessions.now)
        books.now seats.old notes.old.lasts.items }
    ensures rests { RowRests (B.means client.now.bench.now) client.now.number 1
        books.now seats.new }
    ensures sessions { IfOk result (λ lines. map (λ l. l.session) lines.items ≡ sessions.now) }
    ensures stands { IfOk result (λ lines. RowStands (B.means client.now.bench.now)
        client.now.number
        client.now.manner.patient client.now.manner.machine V.made lines.items 0 books.now seats.new
        notes.new.lasts.items) }
    ensures arrays { IfOk result (λ lines. HaveRun (B.means client.now.bench.now) sessions.now
        notes.old.arrays.items notes.new.arrays.items) }
{
    let mut lines: Vec<CallLine> = Vec::with_capacity(client.alloc, sessions.len())?;
    for i in 0..sessions.len() {
        let call = i as u32 + 1;
        let number = client.number;
        client.gate.pass(Place::BeforeCall {
            client: number,
            call,
        });
        let (line, refused) = next_call(client, books, seats, notes, sessions, &lines)?;
        lines.push_reserved(line);
        if refused {
            let _ = client.hints.send(client.rt, line.session);
        }
        if let How::Trial(_) = line.how {
            let _ = client.hints.send(client.rt, line.session);
        }
        client.gate.pass(Place::AfterCall {
            client: number,
            call,
        });
    }
    Ok(lines)
}

/// Leaves a session, where the client called it.
fn leave_one<V: Made + Drop, R: Wait, B: Bench<V>>(
    at: &Worker<'_, V, R, B>,
    seat: &mut Seat<V>,
    last: &Last<V>,
)
    requires number { at.now.number < 200 }
    requires sits { Sits at.now.number at.now.book.now seat.old }
    requires left { 0 < left_of seat.old }
    ensures sits { Sits at.now.number at.now.book.now seat.new }
    ensures left { LeftOne at.now.number at.now.book.now last.now.how seat.old seat.new }
{
    if let Some(_) = last.how {
        at.leave(seat);
    }
}

/// Leaves each session that the client called.
pub(crate) fn leave_called<V: Made + Drop, R: Wait, B: Bench<V>, G: Gate>(
    client: &Client<'_, R, B, G>,
    books: &[Book<V>],
    seats: &mut [Seat<V>],
    notes: &Notes<V>,
    lines: &[CallLine],
)
    requires number { client.now.number < 200 }
    requires few { length books.now < 65536 }
    requires stands { RowStands (B.means client.now.bench.now) client.now.number
        client.now.manner.patient
        client.now.manner.machine V.made lines.now 0 books.now seats.old notes.now.lasts.items }
    ensures ended { RowEnded (B.means client.now.bench.now) client.now.number
        client.now.manner.patient
        client.now.manner.machine lines.now books.now seats.new }
{
    for i in 0..books.len() {
        let at = Worker {
            rt: client.rt,
            alloc: client.alloc,
            bench: client.bench,
            book: &books[i],
            session: i as u32,
            number: client.number,
        };
        let seat = &mut seats[i];
        leave_one(&at, seat, &notes.lasts[i]);
    }
}

/// Leaves each session, where there was no memory.
pub(crate) fn leave_all<V: Made + Drop, R: Wait, B: Bench<V>, G: Gate>(
    client: &Client<'_, R, B, G>,
    books: &[Book<V>],
    seats: &mut [Seat<V>],
)
    requires number { client.now.number < 200 }
    requires few { length books.now < 65536 }
    requires rests { RowRests (B.means client.now.bench.now) client.now.number 1 books.now
        seats.old }
    ensures rests { RowRests (B.means client.now.bench.now) client.now.number 0
        books.now seats.new }
{
    for i in 0..books.len() {
        let at = Worker {
            rt: client.rt,
            alloc: client.alloc,
            bench: client.bench,
            book: &books[i],
            session: i as u32,
            number: client.number,
        };
        let seat = &mut seats[i];
        at.leave(seat);
    }
}
