//! One worker on a row of seats of its own.
ghost use Rattle.std.specs.Prelude.{◌≡◌, ◌<◌, length, false};
ghost use Rattle.ch_crew.specs.Did.{BuilderDid, IsReady, PlayedBy};
ghost use Rattle.ch_rows.specs.FirstSeats.{IsBack, IsNew};
ghost use Rattle.ch_seats.specs.Walk.{Row};

use crate::crew::Crew;
use ch_book::{Book, Seat};
use ch_builders::{Builder, work};
use ch_client::{Client, Log, play_script};
use ch_io::Gate;
use ch_seats::Bench;
use ch_session::Made;
use crossbeam_channel::Sender;
use std::alloc::AllocError;
use std::sync::Wait;

/// A builder's work. It gives its seats back, and tells whether it found no memory.
pub(crate) fn build_on<V: Made + Drop, R: Wait, B: Bench<V>, G: Gate>(
    crew: &Crew<'_, R, B, G>,
    books: &[Book<V>],
    mut row: Vec<Seat<V>>,
    number: u32,
) -> (Vec<Seat<V>>, bool)
    requires number { number < 200 }
    requires ready { IsReady (B.means crew.now.bench.now) crew.now.turns crew.now.callers.now
        books.now }
    requires row { Row (IsNew number crew.now.turns) books.now row.items }
    ensures row { Row IsBack books.now result.0.items }
    ensures did { result.1 ≡ false
        → Row (BuilderDid (B.means crew.now.bench.now) number) books.now result.0.items }
{
    let builder = Builder {
        rt: crew.rt,
        alloc: crew.alloc,
        bench: crew.bench,
        hints: crew.hints,
        gate: crew.gate,
        number,
    };
    let memory = work(&builder, books, &mut row);
    (row, memory)
}

/// A client's calls. It gives its seats back.
pub(crate) fn play_on<V: Made + Drop, R: Wait, B: Bench<V>, G: Gate>(
    crew: &Crew<'_, R, B, G>,
    books: &[Book<V>],
    hints: &Sender<u32>,
    mut row: Vec<Seat<V>>,
    number: usize,
) -> (Vec<Seat<V>>, Result<Log, AllocError>)
    requires number { number < length crew.now.callers.now }
    requires ready { IsReady (B.means crew.now.bench.now) crew.now.turns crew.now.callers.now
        books.now }
    requires row { Row (IsNew number crew.now.turns) books.now row.items }
    ensures row { Row IsBack books.now result.0.items }
    ensures did { PlayedBy (B.means crew.now.bench.now) number crew.now.callers.now books.now
        result.0.items result.1 }
{
    let caller = &crew.callers[number];
    let client = Client {
        rt: crew.rt,
        alloc: crew.alloc,
        bench: crew.bench,
        hints,
        gate: crew.gate,
        number: number as u32,
        manner: caller.manner,
    };
    let log = play_script(&client, books, &mut row, caller.sessions.as_slice());
    (row, log)
}
