//! That turns and seats cross threads wherever their value may: another thread shares the turn, and
//! a seat goes there and comes back. The check proves it here once, for all values, and not first
//! where a crate above starts a thread.
ghost use Rattle.std.specs.Prelude.{◌≡◌};
ghost use Rattle.ch_turn.specs.Seats.{HasAllNumbers, IsIdle, holdings, own_number};

use crate::listed::Listed;
use crate::seat::TurnSeat;
use crate::turn::Turn;
use std::alloc::Global;
use std::thread::{Threads, join};

fn read_news<V: Listed>(turn: &Turn<V>, mut seat: TurnSeat<V>) -> TurnSeat<V>
    requires { IsIdle turn.now (own_number seat) seat }
    ensures { IsIdle turn.now (own_number seat) result × (holdings result ≡ holdings seat) }
{
    turn.news(&mut seat);
    seat
}

/// Another thread reads the news through a seat of its own, and the turn is closed once that seat
/// is back.
pub(crate) fn cross<V: Listed + Send, R: Threads + Sync>(
    rt: &R,
    alloc: Global,
    turn: Turn<V>,
    mut seat: TurnSeat<V>,
) -> V
    requires { IsIdle turn 65535 seat × HasAllNumbers seat }
{
    let Ok(other) = turn.split(alloc, &mut seat, 0, 0) else {
        unreachable!()
    };
    let shared = &turn;
    let (other, seen) = join(
        rt,
        move || -> TurnSeat<V>
            requires { IsIdle shared.now (own_number other) other }
            ensures { IsIdle shared.entry.now (own_number other) result
                × (holdings result ≡ holdings other) }
        { read_news(shared, other) },
        move || -> TurnSeat<V>
            requires { IsIdle shared.now (own_number seat) seat }
            ensures { IsIdle shared.entry.now (own_number seat) result
                × (holdings result ≡ holdings seat) }
        { read_news(shared, seat) },
    );
    let mut seat = seen;
    turn.join(&mut seat, other);
    turn.close(seat)
}
