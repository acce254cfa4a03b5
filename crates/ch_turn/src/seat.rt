//! A seat of a turn.
ghost use Rattle.std.specs.Prelude.{◌≡◌, ◌<◌, true};
ghost use Rattle.ch_turn.specs.Holdings.{has_number};

use crate::listed::Listed;
use crate::view::View;
use atomic_table::Seat;

pub(crate) type TableSeat<V> = Seat<Option<V>, View<<V as Listed>::Entry>>;

/// The right to take turns on a value, some number of times, under a number of its own. A thread
/// that takes turns has one.
///
/// A seat holds seat numbers, each with the entries that carry it: its own number, and for the
/// first seat, or one that others were joined to, more. A seat that is dropped takes its numbers
/// with it, and the turn can't be closed any more.
#[derive(Drop)]
pub struct TurnSeat<V: Listed> {
    pub(crate) seat: TableSeat<V>,
    pub(crate) own: u32,
    pub(crate) left: u64,
    ghost left_known: { seat.me.0.left ≡ left },
    ghost own_held: { (own < 65536) × (has_number own seat.me.0.holdings ≡ true) },
}

impl<V: Listed> TurnSeat<V> {
    ghost use Rattle.std.specs.Prelude.{◌≡◌, ◌<◌};
    ghost use Rattle.ch_turn.specs.Seats.{own_number, turns_left, HasNumber};

    /// The number that the entries of this seat carry, below 65,536. The seat holds it.
    pub fn number(&self) -> u32
        ensures value { result ≡ own_number self.now }
        ensures small { result < 65536 }
        ensures held { HasNumber self.now result }
    {
        self.own
    }

    /// How many turns it may still take.
    pub fn left(&self) -> u64
        ensures { result ≡ turns_left self.now }
    {
        self.left
    }
}
