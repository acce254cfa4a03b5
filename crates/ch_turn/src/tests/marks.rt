//! A value that stands for a list of marks, and one turn on it.
ghost use Rattle.std.specs.Prelude.{◌≡◌, ◌≢◌, ◌+◌, ◌++◌, ◌<◌, ◌≤◌, ℕ};
ghost use Rattle.std.specs.Prelude.{List, [], All, IfOk, OnOk, length};
ghost use Rattle.ch_turn.specs.Seats.{HasAllNumbers, HasNumber, IsIdle, own_number, turns_left};

use crate::{Listed, Turn, TurnSeat};
use std::alloc::{AllocError, Global};
use std::sync::Wait;

/// The `count`-th mark of the seat `by`.
#[derive(Clone, Copy, PartialEq)]
pub struct Mark {
    pub by: u32,
    pub count: u32,
}

#[derive(Drop)]
pub struct Marks {
    marks: Vec<Mark>,
}

impl Listed for Marks {
    ghost use Rattle.std.specs.Prelude.{◌≤◌, length};
    ghost use Rattle.std.proofs.Common.{le-add_right, length-append, subst, sym};

    type Entry = Mark;

    ghost list = { λ m. m.marks.items };

    ghost by = { λ m. m.by };

    ghost news = { length };

    ghost alike = { λ _ _. Unit {0} };

    ghost news_grow = { λ xs ys. subst (λ n. length xs ≤ n) (sym (length-append xs ys)) (le-add_right (length xs) (length ys)) };
}

impl Marks {
    pub fn new(alloc: Global) -> Marks
        ensures { result.marks.items ≡ [] }
    {
        Marks {
            marks: Vec::new(alloc),
        }
    }

    pub fn len(&self) -> u64
        ensures { result ≡ length self.now.marks.items }
    {
        self.marks.len() as u64
    }

    pub fn as_slice(&self) -> &[Mark] {
        self.marks.as_slice()
    }

    /// Without memory the mark is missing.
    pub fn add(&mut self, mark: Mark)
        ensures { (more : List Mark) × (self.new.marks.items ≡ self.old.marks.items ++ more)
            × All (λ m. m.by ≡ mark.by) more }
    {
        let _ = self.marks.push(mark);
    }
}

/// One turn, in which the seat adds a mark of its own.
pub fn leave_mark<R: Wait>(rt: &R, turn: &Turn<Marks>, seat: &mut TurnSeat<Marks>, count: u32)
    requires idle { IsIdle turn.now (own_number seat.old) seat.old }
    requires turns { 0 < turns_left seat.old }
    ensures idle { IsIdle turn.now (own_number seat.old) seat.new }
    ensures turns { turns_left seat.new + 1 ≡ turns_left seat.old }
    ensures numbers { (n : ℕ) → HasNumber seat.old n → HasNumber seat.new n }
{
    let mut marks = turn.enter(rt, seat);
    let by = seat.number();
    marks.add(Mark { by, count });
    let news = marks.len();
    turn.leave(seat, marks, news);
}

/// Another seat has the number for one turn, and gives it back.
fn lend<R: Wait>(
    rt: &R,
    alloc: Global,
    turn: &Turn<Marks>,
    seat: &mut TurnSeat<Marks>,
    number: u32,
) -> Result<(), AllocError>
    requires idle { IsIdle turn.now 65535 seat.old × HasAllNumbers seat.old }
    requires number { (number < 65535) × (0 < turns_left seat.old) }
    ensures idle { IsIdle turn.now 65535 seat.new × HasAllNumbers seat.new }
    ensures turns { OnOk result (turns_left seat.new + 1 ≡ turns_left seat.old) }
{
    let mut other = turn.split(alloc, seat, number, 1)?;
    leave_mark(rt, turn, &mut other, 0);
    turn.join(seat, other);
    Ok(())
}

/// Each number but the seat's own is lent once.
pub fn lend_each<R: Wait>(
    rt: &R,
    alloc: Global,
    turn: &Turn<Marks>,
    seat: &mut TurnSeat<Marks>,
) -> Result<(), AllocError>
    requires idle { IsIdle turn.now 65535 seat.old × HasAllNumbers seat.old }
    requires turns { 65535 ≤ turns_left seat.old }
    ensures idle { IsIdle turn.now 65535 seat.new × HasAllNumbers seat.new }
    ensures turns { OnOk result (turns_left seat.new + 65535 ≡ turns_left seat.old) }
{
    for number in 0..65535u32 {
        lend(rt, alloc, turn, seat, number)?;
    }
    Ok(())
}
