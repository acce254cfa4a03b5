//! All clients and builders.
ghost use Rattle.std.specs.Prelude.{◌≡◌, ◌⊎◌, ◌+◌, ◌-◌, ◌*◌, ◌<◌, ◌≤◌, ◌++◌, ◌∷◌, ℕ, [], length, IsOkAnd, true, false};
ghost use Rattle.std.specs.Thread.{IsSync};
ghost use Rattle.ch_crew.specs.Did.{BuilderDid, BuildersDone, ClientsDone, IsReady, PlayedBy};
ghost use Rattle.ch_rows.specs.FirstSeats.{Blank, IsBack, IsFirst, IsNew, Keeps, MayCut};
ghost use Rattle.ch_seats.specs.Walk.{Row};

use crate::worker::{build_on, play_on};
use ch_affine::List;
use ch_book::{Book, Seat};
use ch_client::{Log, Manner};
use ch_io::Gate;
use ch_rows::{cut_row, take_row};
use ch_seats::Bench;
use ch_session::{Event, Made, Session};
use ch_turn::Listed;
use crossbeam_channel::{Receiver, Sender};
use std::alloc::{AllocError, Global};
use std::sync::Wait;
use std::thread::{Threads, join};

/// What all clients and builders work with.
#[derive(Drop)]
pub struct Crew<'a, R, B, G> {
    pub rt: &'a R,
    pub alloc: Global,
    pub bench: &'a B,
    pub gate: &'a G,
    /// Where builders hear which session may have an open trial.
    pub hints: &'a Receiver<u32>,
    pub callers: &'a [Caller],
    /// So many turns each client and builder has on each session.
    pub turns: u64,
}

/// A client before it begins: how it behaves, and the sessions of its calls, in order.
#[derive(Drop)]
pub struct Caller {
    pub manner: Manner,
    pub sessions: List<u32>,
}

/// What came of clients and builders: the first seats, with all others taken in again, the clients'
/// logs in order, and whether somebody found no memory. Then there may be fewer logs.
#[derive(Drop)]
pub struct Gathered<V: Made + Drop>
where
    Session<V>: Listed<Entry = Event>,
{
    pub seats: Vec<Seat<V>>,
    pub logs: Vec<Log>,
    pub memory: bool,
}

/// Adds a log, and tells whether there was one, and memory for it.
fn add_log(logs: &mut Vec<Log>, log: Result<Log, AllocError>) -> bool
    ensures { result ≡ true → IsOkAnd log (λ l. logs.new.items ≡ logs.old.items ++ l ∷ []) }
{
    match log {
        Ok(log) => match logs.push(log) {
            Ok(()) => true,
            Err(_) => false,
        },
        Err(_) => false,
    }
}

/// Takes in what a client gives back, after the clients before it.
fn with_client<V: Made + Drop>(
    books: &[Book<V>],
    before: Gathered<V>,
    row: Vec<Seat<V>>,
    log: Result<Log, AllocError>,
) -> Gathered<V>
    requires seats { Row IsFirst books.now before.seats.items }
    requires row { Row IsBack books.now row.items }
    ensures seats { Row IsFirst books.now result.seats.items }
    ensures ours { (x : ℕ) → Row (Keeps x) before.seats.items result.seats.items }
    ensures theirs { (x : ℕ) → Row (Keeps x) row.items result.seats.items }
    ensures memory { result.memory ≡ false → before.memory ≡ false }
    ensures logs { result.memory ≡ false → IsOkAnd log (λ l.
        result.logs.items ≡ before.logs.items ++ l ∷ []) }
{
    let Gathered {
        mut seats,
        mut logs,
        memory,
    } = before;
    take_row(books, &mut seats, row);
    let added = add_log(&mut logs, log);
    Gathered {
        seats,
        logs,
        memory: memory || !added,
    }
}

/// The clients 0 to n, each with seats of its own and in a thread of its own, or here where none
/// can be made.
fn call_all<
    V: Made + Drop + Send + Sync,
    R: Threads + Wait + Sync,
    B: Bench<V> + Sync,
    G: Gate + Sync,
>(
    crew: &Crew<'_, R, B, G>,
    books: &[Book<V>],
    hints: &Sender<u32>,
    seats: Vec<Seat<V>>,
    n: usize,
) -> Gathered<V>
    requires ready { IsReady (B.means crew.now.bench.now) crew.now.turns crew.now.callers.now
        books.now }
    requires callers { n ≤ length crew.now.callers.now }
    requires seats { Row (MayCut (n * crew.now.turns)) books.now seats.items }
    requires blank { (x : ℕ) → x < n → Row (Blank x) books.now seats.items }
    ensures seats { Row IsFirst books.now result.seats.items }
    ensures clients { result.memory ≡ false → ClientsDone (B.means crew.now.bench.now) n
        crew.now.callers.now books.now result.seats.items result.logs.items }
    ensures others { (x : ℕ) → n ≤ x → Row (Blank x) books.now seats.items
        → Row (Blank x) books.now result.seats.items }
{
    let mut seats = seats;
    if n == 0 {
        return Gathered {
            seats,
            logs: Vec::new(crew.alloc),
            memory: false,
        };
    }
    let c = n - 1;
    let Ok(row) = cut_row(crew.alloc, books, &mut seats, c as u32, crew.turns) else {
        return Gathered {
            seats,
            logs: Vec::new(crew.alloc),
            memory: true,
        };
    };
    let ((row, log), before) = join(
        crew.rt,
        move || -> (Vec<Seat<V>>, Result<Log, AllocError>)
            requires { IsReady (B.means crew.now.bench.now) crew.now.turns crew.now.callers.now
                books.now
                × (c < length crew.now.callers.now) × Row (IsNew c crew.now.turns) books.now
                row.items }
            ensures { Row IsBack books.entry.now result.0.items
                × PlayedBy (B.means crew.entry.now.bench.now) c crew.entry.now.callers.now
                books.entry.now
                result.0.items result.1 }
        { play_on(crew, books, hints, row, c) },
        move || -> Gathered<V>
            requires { IsSync R.row × IsSync B.row × IsSync G.row
                × IsReady (B.means crew.now.bench.now) crew.now.turns crew.now.callers.now books.now
                × (c ≤ length crew.now.callers.now)
                × Row (MayCut (c * crew.now.turns)) books.now seats.items
                × ((x : ℕ) → x < c → Row (Blank x) books.now seats.items) }
            ensures { Row IsFirst books.entry.now result.seats.items
                × (result.memory ≡ false → ClientsDone (B.means crew.entry.now.bench.now) c
                crew.entry.now.callers.now books.entry.now result.seats.items result.logs.items)
                × ((x : ℕ) → c ≤ x → Row (Blank x) books.entry.now seats.items
                → Row (Blank x) books.entry.now result.seats.items) }
        { call_all(crew, books, hints, seats, c) },
    );
    with_client(books, before, row, log)
}

/// Takes in what a builder gives back.
fn with_builder<V: Made + Drop>(
    books: &[Book<V>],
    before: Gathered<V>,
    row: Vec<Seat<V>>,
    memory: bool,
) -> Gathered<V>
    requires seats { Row IsFirst books.now before.seats.items }
    requires row { Row IsBack books.now row.items }
    ensures seats { Row IsFirst books.now result.seats.items }
    ensures ours { (x : ℕ) → Row (Keeps x) before.seats.items result.seats.items }
    ensures theirs { (x : ℕ) → Row (Keeps x) row.items result.seats.items }
    ensures logs { result.logs.items ≡ before.logs.items }
    ensures memory { result.memory ≡ false → (before.memory ≡ false) × (memory ≡ false) }
{
    let Gathered {
        mut seats,
        logs,
        memory: found,
    } = before;
    take_row(books, &mut seats, row);
    Gathered {
        seats,
        logs,
        memory: found || memory,
    }
}

/// The builders k to n and all clients, each in a thread of its own. A builder for which no thread
/// can be made works here after the last client, when the hints are closed.
pub fn run_all<
    V: Made + Drop + Send + Sync,
    R: Threads + Wait + Sync,
    B: Bench<V> + Sync,
    G: Gate + Sync,
>(
    crew: &Crew<'_, R, B, G>,
    books: &[Book<V>],
    hints: Sender<u32>,
    seats: Vec<Seat<V>>,
    k: u32,
    n: u32,
) -> Gathered<V>
    requires ready { IsReady (B.means crew.now.bench.now) crew.now.turns crew.now.callers.now
        books.now }
    requires builders { (100 ≤ k) × (k ≤ n) × (n ≤ 200) }
    requires seats { Row (MayCut ((n - k + length crew.now.callers.now) * crew.now.turns))
        books.now seats.items }
    requires blank { (x : ℕ) → (x < length crew.now.callers.now) ⊎ ((k ≤ x) × (x < n))
        → Row (Blank x) books.now seats.items }
    ensures seats { Row IsFirst books.now result.seats.items }
    ensures clients { result.memory ≡ false → ClientsDone (B.means crew.now.bench.now)
        (length crew.now.callers.now) crew.now.callers.now books.now result.seats.items
        result.logs.items }
    ensures builders { result.memory ≡ false → BuildersDone (B.means crew.now.bench.now) k n
        books.now
        result.seats.items }
    ensures others { (x : ℕ) → length crew.now.callers.now ≤ x → (x < k) ⊎ (n ≤ x)
        → Row (Blank x) books.now seats.items → Row (Blank x) books.now result.seats.items }
{
    let mut seats = seats;
    if k == n {
        return call_all(crew, books, &hints, seats, crew.callers.len());
    }
    let Ok(row) = cut_row(crew.alloc, books, &mut seats, k, crew.turns) else {
        return Gathered {
            seats,
            logs: Vec::new(crew.alloc),
            memory: true,
        };
    };
    let ((row, memory), before) = join(
        crew.rt,
        move || -> (Vec<Seat<V>>, bool)
            requires { IsReady (B.means crew.now.bench.now) crew.now.turns crew.now.callers.now
                books.now
                × (k < 200) × Row (IsNew k crew.now.turns) books.now row.items }
            ensures { Row IsBack books.entry.now result.0.items
                × (result.1 ≡ false → Row (BuilderDid (B.means crew.entry.now.bench.now) k)
                books.entry.now
                result.0.items) }
        { build_on(crew, books, row, k) },
        move || -> Gathered<V>
            requires { IsSync R.row × IsSync B.row × IsSync G.row
                × IsReady (B.means crew.now.bench.now) crew.now.turns crew.now.callers.now books.now
                × ((100 ≤ k + 1) × (k + 1 ≤ n) × (n ≤ 200))
                × Row (MayCut ((n - (k + 1) + length crew.now.callers.now) * crew.now.turns))
                books.now seats.items
                × ((x : ℕ) → (x < length crew.now.callers.now) ⊎ ((k + 1 ≤ x) × (x < n))
                → Row (Blank x) books.now seats.items) }
            ensures { Row IsFirst books.entry.now result.seats.items
                × (result.memory ≡ false → ClientsDone (B.means crew.entry.now.bench.now)
                (length crew.entry.now.callers.now) crew.entry.now.callers.now books.entry.now
                result.seats.items result.logs.items)
                × (result.memory ≡ false → BuildersDone (B.means crew.entry.now.bench.now) (k + 1) n
                books.entry.now result.seats.items)
                × ((x : ℕ) → length crew.entry.now.callers.now ≤ x → (x < k + 1) ⊎ (n ≤ x)
                → Row (Blank x) books.entry.now seats.items
                → Row (Blank x) books.entry.now result.seats.items) }
        { run_all(crew, books, hints, seats, k + 1, n) },
    );
    with_builder(books, before, row, memory)
}
