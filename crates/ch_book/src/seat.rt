ghost use Rattle.std.specs.Prelude.{◌≡◌};

use ch_session::{Event, Made, Session};
use ch_turn::{Listed, TurnSeat};

/// The right to take turns on a book, some number of times, under a number of its own.
#[derive(Drop)]
pub struct Seat<V: Made + Drop>
where
    Session<V>: Listed<Entry = Event>,
{
    pub(crate) seat: TurnSeat<Session<V>>,
}

impl<V: Made + Drop> Seat<V> {
    ghost use Rattle.std.specs.Prelude.{◌≡◌, ◌<◌};
    ghost use Rattle.ch_book.specs.Books.{Holds, left_of, number_of};

    /// How many turns it may still take.
    pub fn left(&self) -> u64
        ensures { result ≡ left_of self.now }
    {
        self.seat.left()
    }

    /// The number that its events carry. The seat holds it.
    pub fn number(&self) -> u32
        ensures value { result ≡ number_of self.now }
        ensures small { result < 65536 }
        ensures held { Holds self.now result }
    {
        self.seat.number()
    }
}
