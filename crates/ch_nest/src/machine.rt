ghost use Rattle.std.specs.Prelude.{◌≡◌, IsTrue, MatchOption, false};
ghost use Rattle.ch_nest.specs.CostModel.{cost_model, is_cache_size, is_machine};

use crate::limits::{MOST_CACHE, MOST_CHARGE};
use std::marker::Model;

/// What a program's elements cost: the turns of loops that begin, and the cells whose line the
/// cache doesn't hold.
///
/// By its type a turn and a miss cost at most 2^20 each, and there are 1 to 4,096 lines of 1 to
/// 4,096 cells.
#[derive(Clone, Copy, Debug, PartialEq, Eq)]
pub struct Machine {
    /// The cost of a turn that begins.
    pub turn: u32,
    /// The cost of a cell whose line isn't held.
    pub miss: u32,
    /// How many lines the cache has. Each cell can be held in one of them.
    pub lines: u32,
    /// How many cells a line has.
    pub width: u32,
}

impl Model for Machine {
    ghost use Rattle.std.specs.Prelude.{IsTrue};
    ghost use Rattle.std.specs.Coded.{codes};
    ghost use Rattle.ch_nest.specs.CostModel.{CostModel, cost_model, is_machine};

    ghost Value = { CostModel };

    ghost coded = { Prim.hlevel codes };

    ghost view = { λ m. cost_model m.turn m.miss m.lines m.width };

    ghost inverse = { λ m. record { turn = m.turn; miss = m.miss; lines = m.lines; width = m.width } };

    ghost invariant = { λ m. IsTrue (is_machine (cost_model m.turn m.miss m.lines m.width)) };
}

fn is_cache_size(n: u32) -> bool
    ensures { result ≡ is_cache_size n }
{
    1 <= n && n <= MOST_CACHE
}

impl Machine {
    /// The machine with these numbers, or `None` where one of them is past its limit.
    pub fn new(turn: u32, miss: u32, lines: u32, width: u32) -> Option<Machine>
        ensures { MatchOption result
            (is_machine (cost_model turn miss lines width) ≡ false)
            (λ m. (m ≡ cost_model turn miss lines width) × IsTrue (is_machine m)) }
    {
        let charges = turn <= MOST_CHARGE && miss <= MOST_CHARGE;
        if !charges || !is_cache_size(lines) || !is_cache_size(width) {
            return None;
        }
        Some(Machine {
            turn,
            miss,
            lines,
            width,
        })
    }

    /// Tells a caller that the machine's numbers keep their limits, as those of each value of the
    /// type do. It does nothing.
    pub fn known(&self)
        ensures { IsTrue (is_machine self.now) }
    {
        let _ = is_cache_size(self.lines);
    }
}
