//! A client's whole script.
ghost use Rattle.std.specs.Prelude.{◌≡◌, ◌+◌, ◌*◌, ◌<◌, ℕ, List, length, IfOk, OnErr, slice_index_or, map, None};
ghost use Rattle.ch_client.specs.Arrays.{AreFilled, CellsAre};
ghost use Rattle.ch_client.specs.Stands.{AreThere, RowBegins, RowEnded, RowRests};
ghost use Rattle.ch_conduct.specs.Meaning.{Meaning};

use crate::last::Last;
use crate::rows::{leave_all, leave_called, play};
use ch_affine::List;
use ch_book::{Book, Seat};
use ch_conduct::CallLine;
use ch_io::Gate;
use ch_nest::Machine;
use ch_seats::Bench;
use ch_session::Made;
use crossbeam_channel::Sender;
use std::alloc::{AllocError, Global};
use std::sync::Wait;

/// How a client behaves.
#[derive(Clone, Copy, Debug)]
pub struct Manner {
    /// Whether it builds a trial itself where it is given none.
    pub patient: bool,
    /// The machine on which its costs are counted.
    pub machine: Machine,
}

/// A client with what it works with: it sends a hint where a trial may have become open, and passes
/// the gate before and after each call.
#[derive(Drop)]
pub struct Client<'a, R, B, G> {
    pub rt: &'a R,
    pub alloc: Global,
    pub bench: &'a B,
    pub hints: &'a Sender<u32>,
    pub gate: &'a G,
    pub number: u32,
    pub manner: Manner,
}

/// What a client's calls gave: its lines, and its cells of each program.
#[derive(Drop)]
pub struct Log {
    pub lines: Vec<CallLine>,
    pub arrays: Vec<List<i64>>,
}

/// What a client keeps from call to call: its last line on each session, and its cells of each
/// program.
#[derive(Drop)]
pub(crate) struct Notes<V: Drop> {
    pub lasts: Vec<Last<V>>,
    pub arrays: Vec<List<i64>>,
}

/// No line yet on any session.
fn no_lasts<V: Made + Drop>(alloc: Global, count: usize) -> Result<Vec<Last<V>>, AllocError>
    ensures { IfOk result (λ v. (length v.items ≡ count) × ((i : ℕ) (l : Last V) → i < count
        → slice_index_or v.items i l ≡ record { how = None; variant = None })) }
{
    let mut lasts = Vec::with_capacity(alloc, count)?;
    for _ in 0..count {
        lasts.push_reserved(Last {
            how: None,
            variant: None,
        });
    }
    Ok(lasts)
}

/// The cells with which a client's arrays of each program begin.
fn filled<V: Made + Drop, B: Bench<V>>(
    alloc: Global,
    bench: &B,
    number: u32,
) -> Result<Vec<List<i64>>, AllocError>
    ensures { IfOk result (λ v. AreFilled (B.means bench.now) number v.items) }
{
    let programs = bench.programs();
    let mut arrays = Vec::with_capacity(alloc, programs as usize)?;
    for program in 0..programs {
        arrays.push_reserved(bench.filled(alloc, number, program)?);
    }
    Ok(arrays)
}

fn calls<V: Made + Drop, R: Wait, B: Bench<V>, G: Gate>(
    client: &Client<'_, R, B, G>,
    books: &[Book<V>],
    seats: &mut [Seat<V>],
    sessions: &[u32],
) -> Result<Log, AllocError>
    requires number { client.now.number < 200 }
    requires few { (length sessions.now < 65536) × (length books.now < 65536) }
    requires there { AreThere (B.means client.now.bench.now) (length books.now) sessions.now }
    requires begins { RowBegins (B.means client.now.bench.now) client.now.number
        (5 * length sessions.now + 1) books.now seats.old }
    ensures sessions { IfOk result (λ log. map (λ l. l.session) log.lines.items ≡ sessions.now) }
    ensures ended { IfOk result (λ log. RowEnded (B.means client.now.bench.now) client.now.number
        client.now.manner.patient client.now.manner.machine log.lines.items books.now seats.new) }
    ensures arrays { IfOk result (λ log.
        CellsAre (B.means client.now.bench.now) client.now.number sessions.now log.arrays.items) }
    ensures rests { OnErr result (RowRests (B.means client.now.bench.now) client.now.number 1
        books.now seats.new) }
{
    let mut notes = Notes {
        lasts: no_lasts(client.alloc, books.len())?,
        arrays: filled(client.alloc, client.bench, client.number)?,
    };
    let lines = play(client, books, seats, &mut notes, sessions)?;
    leave_called(client, books, seats, &notes, &lines);
    let Notes { arrays, .. } = notes;
    Ok(Log { lines, arrays })
}

/// The calls of a client of these sessions, one after another, on one book and one seat for each
/// session. Between two calls and at the end its arrays are those that its calls left.
///
/// After want of memory it has left all sessions, and the seats may be taken in again.
pub fn play_script<V: Made + Drop, R: Wait, B: Bench<V>, G: Gate>(
    client: &Client<'_, R, B, G>,
    books: &[Book<V>],
    seats: &mut [Seat<V>],
    sessions: &[u32],
) -> Result<Log, AllocError>
    requires number { client.now.number < 200 }
    requires few { (length sessions.now < 65536) × (length books.now < 65536) }
    requires there { AreThere (B.means client.now.bench.now) (length books.now) sessions.now }
    requires begins { RowBegins (B.means client.now.bench.now) client.now.number
        (5 * length sessions.now + 1) books.now seats.old }
    ensures sessions { IfOk result (λ log. map (λ l. l.session) log.lines.items ≡ sessions.now) }
    ensures ended { IfOk result (λ log. RowEnded (B.means client.now.bench.now) client.now.number
        client.now.manner.patient client.now.manner.machine log.lines.items books.now seats.new) }
    ensures arrays { IfOk result (λ log.
        CellsAre (B.means client.now.bench.now) client.now.number sessions.now log.arrays.items) }
    ensures rests { OnErr result (RowRests (B.means client.now.bench.now) client.now.number 0
        books.now seats.new) }
{
    match calls(client, books, seats, sessions) {
        Ok(log) => Ok(log),
        Err(error) => {
            leave_all(client, books, seats);
            Err(error)
        }
    }
}
