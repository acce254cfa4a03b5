ghost use Rattle.std.specs.Prelude.{◌≡◌, ◌≤◌, ◌*◌, ℕ, ℤ, List, length, map, IfOk, IsTrue, false};
ghost use Rattle.std.specs.List.{All, list_any};
ghost use Rattle.ch_poly.specs.Boxes.{IsBoxed, Within};
ghost use Rattle.ch_poly.specs.Fixed.{IsFixed, Begins, HasPoint};
ghost use Rattle.ch_poly.specs.Points.{points, begins};
ghost use Rattle.ch_poly.specs.Rooms.{Size};

use crate::goal::Goal;
use crate::opposed::any_opposed;
use crate::search::search;
use crate::simplex::space_len;
use ch_affine::{Aff, Range, System};
use std::alloc::{AllocError, Global};
use std::marker::Model;

/// The memory of one search, by the most variables and rows that it is enough for.
///
/// A search over n variables works on a box and on one further box at each depth: 2 * n * n + 2 * n
/// numbers.
#[derive(Debug, Drop)]
pub struct Room {
    lows: Vec<i64>,
    highs: Vec<i64>,
    others: Vec<i64>,
    space: Vec<i64>,
    rows: usize,
}

impl Model for Room {
    ghost use Rattle.std.specs.Prelude.{length};
    ghost use Rattle.ch_poly.specs.Rooms.{Size, IsRoom};

    ghost Value = { Size };

    ghost view = { λ r. record { vars = length r.lows.items; rows = r.rows } };

    ghost invariant = { λ r. IsRoom r.lows.items r.highs.items r.others.items };
}

impl Room {
    /// Room for systems of at most so many variables and rows.
    pub fn of(alloc: Global, vars: u32, rows: usize) -> Result<Room, AllocError>
        ensures vars { IfOk result (λ r. r.vars ≡ vars) }
        ensures rows { IfOk result (λ r. r.rows ≡ rows) }
    {
        let count = vars as usize;
        let lows = vec![in alloc; 0i64; count]?;
        let highs = vec![in alloc; 0i64; count]?;
        // In two halves, since twice the square might pass `usize`, and want of memory is then told
        // by the allocator.
        let half = vec![in alloc; 0i64; count * count]?;
        let mut others = vec![in alloc; 0i64; count * count]?;
        others.extend_from_slice(half.as_slice())?;
        let space = vec![in alloc; 0i64; space_len(count, rows)]?;
        Ok(Room {
            lows,
            highs,
            others,
            space,
            rows,
        })
    }
}

/// Whether the system has a point whose first values are `fixed`. It takes no memory.
pub fn has_point(s: &System, fixed: &[i64], room: &mut Room) -> bool
    requires few { length fixed.now ≤ s.now.vars }
    requires room_vars { s.now.vars ≤ room.old.vars }
    requires room_rows { length s.now.rows ≤ room.old.rows }
    ensures room { room.new ≡ room.old }
    ensures found { result ≡ list_any (begins fixed.now) (points s.now) }
{
    let rows = s.rows.as_slice();
    let boxes = s.boxes.as_slice();
    let lows = room.lows.as_mut_slice();
    let highs = room.highs.as_mut_slice();
    let others = room.others.as_mut_slice();
    let space = room.space.as_mut_slice();
    solve_in(rows, boxes, fixed, lows, highs, others, space)
}

fn solve_in(
    rows: &[Aff],
    boxes: &[Range],
    fixed: &[i64],
    lows: &mut [i64],
    highs: &mut [i64],
    others: &mut [i64],
    space: &mut [i64],
) -> bool
    requires same { All (λ f. length f.coefs ≡ length boxes.now) rows.now }
    requires boxed { IsBoxed (map (λ b. b.low) boxes.now) (map (λ b. b.high) boxes.now) }
    requires few { length fixed.now ≤ length boxes.now }
    requires lows { length boxes.now ≤ length lows.old }
    requires highs { length highs.old ≡ length lows.old }
    requires others { 2 * length lows.old * length lows.old ≤ length others.old }
    ensures yes { IsTrue result → HasPoint rows.now fixed.now (map (λ b.
        b.low) boxes.now) (map (λ b. b.high) boxes.now) }
    ensures no { result ≡ false → HasPoint rows.now fixed.now (map (λ b.
        b.low) boxes.now) (map (λ b. b.high) boxes.now) → ⊥ }
{
    if any_opposed(rows) {
        return false;
    }
    let count = boxes.len();
    let lows = &mut lows[..count];
    let highs = &mut highs[..count];
    write_box(boxes, lows, highs);
    if !fix_front(fixed, lows, highs) {
        return false;
    }
    let goal = Goal {
        rows,
        tops: &[],
        bound: 0,
    };
    search(&goal, 0, lows, highs, others, space)
}

/// Fixes the first variables. False where a value is outside its range.
fn fix_front(fixed: &[i64], lows: &mut [i64], highs: &mut [i64]) -> bool
    requires few { length fixed.now ≤ length lows.old }
    requires same { length highs.old ≡ length lows.old }
    ensures yes { IsTrue result
        → IsFixed (length fixed.now) fixed.now lows.old highs.old lows.new highs.new }
    ensures no { result ≡ false → (p : List ℤ) → Within lows.old highs.old p → Begins fixed.now p
        → ⊥ }
{
    for k in 0..fixed.len() {
        if fixed[k] < lows[k] || highs[k] < fixed[k] {
            return false;
        }
        lows[k] = fixed[k];
        highs[k] = fixed[k];
    }
    true
}

/// Writes the ranges' ends.
pub fn write_box(boxes: &[Range], lows: &mut [i64], highs: &mut [i64])
    requires lows { length lows.old ≡ length boxes.now }
    requires highs { length highs.old ≡ length boxes.now }
    ensures lows { lows.new ≡ map (λ b. b.low) boxes.now }
    ensures highs { highs.new ≡ map (λ b. b.high) boxes.now }
{
    for k in 0..boxes.len() {
        lows[k] = boxes[k].low;
        highs[k] = boxes[k].high;
    }
}
