//! Rows of seats.
ghost use Rattle.std.specs.Prelude.{◌≡◌, ◌≢◌, ◌+◌, ◌<◌, ◌≤◌, ℕ, [], IfOk, OnErr};
ghost use Rattle.ch_book.specs.Books.{IsOf, left_of, number_of, reads, seen};
ghost use Rattle.ch_rows.specs.FirstSeats.{Blank, IsFirst, IsBack, IsNew, Keeps, MayCut};
ghost use Rattle.ch_seats.specs.Walk.{Row};

use ch_book::{Book, Seat};
use ch_session::Made;
use std::alloc::{AllocError, Global};

/// A seat with this number and so many turns, cut from a first seat that has seen nothing.
fn cut<V: Made + Drop>(
    alloc: Global,
    book: &Book<V>,
    seat: &mut Seat<V>,
    number: u32,
    turns: u64,
) -> Seat<V>
    requires number { number < 200 }
    requires seat { MayCut turns 0 book.now seat.old }
    requires blank { Blank number 0 book.now seat.old }
    ensures seat { IsOf book.now 65535 seat.new × (seen seat.new ≡ []) × (reads seat.new ≡ []) }
    ensures turns { left_of seat.new + turns ≡ left_of seat.old }
    ensures others { (x : ℕ) → x ≢ number → Blank x 0 book.now seat.old
        → Blank x 0 book.now seat.new }
    ensures new { IsNew number turns 0 book.now result }
{
    let Ok(mine) = book.split(alloc, seat, number, turns) else {
        unreachable!()
    };
    mine
}

/// Takes a seat in.
fn take_in<V: Made + Drop>(book: &Book<V>, seat: &mut Seat<V>, other: Seat<V>)
    requires seat { IsFirst 0 book.now seat.old }
    requires other { IsOf book.now (number_of other) other }
    ensures seat { IsFirst 0 book.now seat.new }
    ensures ours { (x : ℕ) → Keeps x 0 seat.old seat.new }
    ensures theirs { (x : ℕ) → Keeps x 0 other seat.new }
{
    book.join(seat, other);
}

/// A row of seats with this number and so many turns, cut from first seats that have seen nothing.
/// Where there is no memory these stay as they were.
pub fn cut_row<V: Made + Drop>(
    alloc: Global,
    books: &[Book<V>],
    seats: &mut [Seat<V>],
    number: u32,
    turns: u64,
) -> Result<Vec<Seat<V>>, AllocError>
    requires number { number < 200 }
    requires seats { Row (MayCut turns) books.now seats.old }
    requires blank { Row (Blank number) books.now seats.old }
    ensures seats { IfOk result (λ row. (rest : ℕ) → Row (MayCut (rest + turns)) books.now seats.old
        → Row (MayCut rest) books.now seats.new) }
    ensures others { IfOk result (λ row. (x : ℕ) → x ≢ number → Row (Blank x) books.now seats.old
        → Row (Blank x) books.now seats.new) }
    ensures new { IfOk result (λ row. Row (IsNew number turns) books.now row.items) }
    ensures same { OnErr result (seats.new ≡ seats.old) }
{
    let mut row = Vec::with_capacity(alloc, books.len())?;
    for i in 0..books.len() {
        let seat = &mut seats[i];
        row.push_reserved(cut(alloc, &books[i], seat, number, turns));
    }
    Ok(row)
}

/// Takes a row of seats in.
pub fn take_row<V: Made + Drop>(books: &[Book<V>], seats: &mut [Seat<V>], mut row: Vec<Seat<V>>)
    requires seats { Row IsFirst books.now seats.old }
    requires row { Row IsBack books.now row.items }
    ensures seats { Row IsFirst books.now seats.new }
    ensures ours { (x : ℕ) → Row (Keeps x) seats.old seats.new }
    ensures theirs { (x : ℕ) → Row (Keeps x) row.items seats.new }
{
    while let Some(other) = row.pop() {
        let i = row.len();
        let seat = &mut seats[i];
        take_in(&books[i], seat, other);
    }
}
