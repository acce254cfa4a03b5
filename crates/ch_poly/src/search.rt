ghost use Rattle.std.specs.Prelude.{◌≡◌, ◌≤◌, ◌^◌, ◌+ℤ◌, ◌-◌, ◌<◌, ◌*◌, ℕ};
ghost use Rattle.std.specs.Prelude.{pos, length, IsTrue, false, slice_set};
ghost use Rattle.std.specs.List.{All};
ghost use Rattle.ch_affine.specs.Affine.{IsAtMost};
ghost use Rattle.ch_poly.specs.Boxes.{IsBoxed, at};
ghost use Rattle.ch_poly.specs.Goals.{Meets, IsEmpty, IsLeast};

use crate::goal::{Goal, reach};
use crate::tighten::tighten;

/// Whether the point meets the goal.
fn holds(goal: &Goal, point: &[i64]) -> bool
    requires same_rows { All (λ f. length f.coefs ≡ length point.now) goal.now.rows.now }
    requires same_tops { All (λ f. length f.coefs ≡ length point.now) goal.now.tops.now }
    requires small { All (IsAtMost (2 ^ 54)) point.now }
    ensures yes { IsTrue result
        → Meets goal.now.rows.now goal.now.tops.now goal.now.bound point.now }
    ensures no { result ≡ false → Meets goal.now.rows.now goal.now.tops.now goal.now.bound point.now
        → ⊥ }
{
    reach(goal.rows, 0, point) && reach(goal.tops, goal.bound, point)
}

/// The first variable from `from` on whose range has more than one number, or their number.
pub fn first_open(lows: &[i64], highs: &[i64], from: usize) -> usize
    requires same { length highs.now ≡ length lows.now }
    requires from { from ≤ length lows.now }
    ensures within { result ≤ length lows.now }
    ensures from { from ≤ result }
    ensures before { (j : ℕ) → from ≤ j → j < result → at lows.now j ≡ at highs.now j }
    ensures open { result < length lows.now → at lows.now result ≡ at highs.now result → ⊥ }
{
    for k in from..lows.len() {
        if lows[k] != highs[k] {
            return k;
        }
    }
    lows.len()
}

/// Raises a number by one.
pub fn one_more(x: i64) -> i64
    requires { IsAtMost (2 ^ 54) x }
    ensures { result ≡ x +ℤ pos 1 }
{
    x + 1
}

/// Writes the part of the box whose number at `k` is the lowest.
fn enter(lows: &[i64], highs: &[i64], k: usize, low_room: &mut [i64], high_room: &mut [i64])
    requires low_len { length low_room.old ≡ length lows.now }
    requires high_len { length high_room.old ≡ length highs.now }
    requires in_lows { k < length lows.now }
    requires in_highs { k < length highs.now }
    ensures lows { low_room.new ≡ lows.now }
    ensures highs { high_room.new ≡ slice_set highs.now k (at lows.now k) }
{
    low_room.copy_from_slice(lows);
    high_room.copy_from_slice(highs);
    high_room[k] = lows[k];
}

/// Leaves the least point of the box that meets the goal in `lows`. False where there is none.
///
/// Narrows the box and then branches on the first variable from `from` on that is still open, from
/// its lowest number upward: each branch is another box in `room`, and a branch without a point
/// raises the variable's low by one.
pub fn search(
    goal: &Goal,
    from: usize,
    lows: &mut [i64],
    highs: &mut [i64],
    room: &mut [i64],
    space: &mut [i64],
) -> bool
    requires same_rows { All (λ f. length f.coefs ≡ length lows.old) goal.now.rows.now }
    requires same_tops { All (λ f. length f.coefs ≡ length lows.old) goal.now.tops.now }
    requires boxed { IsBoxed lows.old highs.old }
    requires from { from ≤ length lows.old }
    requires fixed { (k : ℕ) → k < from → at lows.old k ≡ at highs.old k }
    requires room { 2 * length lows.old * (length lows.old - from) ≤ length room.old }
    ensures yes { IsTrue result
        → IsLeast (Meets goal.now.rows.now goal.now.tops.now goal.now.bound) lows.old highs.old lows.new }
    ensures no { result ≡ false
        → IsEmpty (Meets goal.now.rows.now goal.now.tops.now goal.now.bound) lows.old highs.old }
{
    let count = lows.len();
    loop {
        if !tighten(goal, from, lows, highs, space) {
            return false;
        }
        let k = first_open(lows, highs, from);
        if k == count {
            return holds(goal, lows);
        }
        let (low_room, others) = room.split_at_mut(count);
        let (high_room, rest) = others.split_at_mut(count);
        enter(lows, highs, k, low_room, high_room);
        if search(goal, k + 1, low_room, high_room, rest, space) {
            lows.copy_from_slice(low_room);
            return true;
        }
        lows[k] = one_more(lows[k]);
    }
}
