//! Marks by several threads, each with a seat of its own.
ghost use Rattle.std.specs.Prelude.{◌≡◌, ◌≢◌, ◌+◌, ◌*◌, ◌<◌, ◌≤◌, ℕ};
ghost use Rattle.std.specs.Thread.{IsSync};
ghost use Rattle.ch_turn.specs.Seats.{HasNumber, IsIdle, own_number, turns_left};

use super::marks::{Marks, leave_mark};
use crate::{Turn, TurnSeat};
use std::alloc::Global;
use std::sync::Wait;
use std::thread::{Threads, join};

/// A thousand marks, one a turn.
fn mark_often<R: Wait>(rt: &R, turn: &Turn<Marks>, mut seat: TurnSeat<Marks>) -> TurnSeat<Marks>
    requires { IsIdle turn.now (own_number seat) seat × (1000 ≤ turns_left seat) }
    ensures { IsIdle turn.now (own_number seat) result }
{
    for count in 0..1000u32 {
        leave_mark(rt, turn, &mut seat, count);
    }
    seat
}

// A seat for the number k, with a thousand turns.
fn cut(alloc: Global, turn: &Turn<Marks>, seat: &mut TurnSeat<Marks>, k: u32) -> TurnSeat<Marks>
    requires idle { IsIdle turn.now 65535 seat.old }
    requires number { (k < 65535) × HasNumber seat.old k × (1000 ≤ turns_left seat.old) }
    ensures idle { IsIdle turn.now 65535 seat.new }
    ensures turns { turns_left seat.new + 1000 ≡ turns_left seat.old }
    ensures others { (n : ℕ) → HasNumber seat.old n → n ≢ k → HasNumber seat.new n }
    ensures new { IsIdle turn.now k result × (turns_left result ≡ 1000) }
{
    match turn.split(alloc, seat, k, 1000) {
        Ok(other) => other,
        Err(_) => unreachable!(),
    }
}

// The seat with the number k comes back.
fn take_in(turn: &Turn<Marks>, seat: &mut TurnSeat<Marks>, other: TurnSeat<Marks>)
    requires idle { IsIdle turn.now 65535 seat.old }
    requires other { IsIdle turn.now (own_number other) other }
    ensures idle { IsIdle turn.now 65535 seat.new }
    ensures ours { (n : ℕ) → HasNumber seat.old n → HasNumber seat.new n }
    ensures theirs { HasNumber seat.new (own_number other) }
{
    turn.join(seat, other);
}

/// Seats of the numbers k to below n, each in a thread of its own, or in this one where none can be
/// made.
pub fn mark_in_threads<R: Threads + Wait + Sync>(
    rt: &R,
    alloc: Global,
    turn: &Turn<Marks>,
    seat: TurnSeat<Marks>,
    k: u32,
    n: u32,
) -> TurnSeat<Marks>
    requires idle { IsIdle turn.now 65535 seat }
    requires room { (k ≤ n) × (n < 65535) × (1000 * n ≤ turns_left seat + 1000 * k) }
    requires numbers { (x : ℕ) → k ≤ x → x < n → HasNumber seat x }
    ensures idle { IsIdle turn.now 65535 result }
    ensures numbers { (x : ℕ) → HasNumber seat x → HasNumber result x }
{
    let mut seat = seat;
    if k == n {
        return seat;
    }
    let mine = cut(alloc, turn, &mut seat, k);
    let (back, mut rest) = join(
        rt,
        move || -> TurnSeat<Marks>
            requires { IsIdle turn.now (own_number mine) mine × (1000 ≤ turns_left mine) }
            ensures { IsIdle turn.entry.now (own_number mine) result }
        { mark_often(rt, turn, mine) },
        move || -> TurnSeat<Marks>
            requires { IsSync R.row × IsIdle turn.now 65535 seat
                × ((k + 1 ≤ n) × (n < 65535) × (1000 * n ≤ turns_left seat + 1000 * (k + 1)))
                × ((x : ℕ) → k + 1 ≤ x → x < n → HasNumber seat x) }
            ensures { IsIdle turn.entry.now 65535 result
                × ((x : ℕ) → HasNumber seat x → HasNumber result x) }
        { mark_in_threads(rt, alloc, turn, seat, k + 1, n) },
    );
    take_in(turn, &mut rest, back);
    rest
}
