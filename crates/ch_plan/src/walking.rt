//! The walk over a plan. It takes no memory and asks nothing of the plan: a place that isn't there
//! reads as 0 and isn't written.

ghost use Rattle.std.specs.Prelude.{◌≡◌, map, length};
ghost use Rattle.ch_plan.specs.Divisor.{IsDivisor};
ghost use Rattle.ch_plan.specs.Planned.{all_touched, machine_of, meter_plan};
ghost use Rattle.ch_plan.specs.Planned.{meter_plans, passes, right_value, run_plan};
ghost use Rattle.ch_plan.specs.Planned.{run_plans, spot_place, spots, state};

use crate::ends::{greatest_low, least_high, nth_between, turns_between};
use crate::meter::{Setting, Tally, begin, touch};
use crate::plan::{Plan, Right};
use crate::sums::{minus, negated, plus, read, spot_place, sum_value, times, written};
use ch_affine::System;
use ch_poly::{Room, has_point};

fn right_value(
    setting: &Setting,
    right: &Right,
    point: &[i64],
    cells: &[i64],
    tally: &mut Tally,
) -> i64
    requires lines { IsDivisor setting.now.lines }
    requires width { IsDivisor setting.now.width }
    ensures value { result ≡ right_value point.now cells.now right.now }
    ensures meter { state tally.new
        ≡ all_touched (machine_of setting.now) (map (spot_place point.now) (spots right.now))
        (state tally.old) }
{
    match right {
        Right::Number(n) => *n,
        Right::Value(form) => sum_value(form, point),
        Right::Read(spot) => {
            let at = spot_place(spot, point);
            touch(setting, at, tally);
            read(cells, at)
        }
        Right::Neg(x) => negated(right_value(setting, x.get(), point, cells, tally)),
        Right::Add(x, y) => {
            let left = right_value(setting, x.get(), point, cells, tally);
            let right = right_value(setting, y.get(), point, cells, tally);
            plus(left, right)
        }
        Right::Sub(x, y) => {
            let left = right_value(setting, x.get(), point, cells, tally);
            let right = right_value(setting, y.get(), point, cells, tally);
            minus(left, right)
        }
        Right::Mul(x, y) => {
            let left = right_value(setting, x.get(), point, cells, tally);
            let right = right_value(setting, y.get(), point, cells, tally);
            times(left, right)
        }
    }
}

#[tactic(auto, using(crate::proofs::Guarding::passes_where, crate::proofs::Guarding::passes_rows))]
fn passes(setting: &Setting, system: &System, around: usize, point: &[i64], room: &mut Room) -> bool
    requires vars { room.old.vars ≡ setting.now.vars }
    requires rows { room.old.rows ≡ setting.now.rows }
    ensures room { room.new ≡ room.old }
    ensures value { result
        ≡ passes setting.now.vars setting.now.rows system.now around point.now }
{
    system.known();
    let vars = system.vars as usize;
    let roomy = system.vars <= setting.vars && system.rows.len() <= setting.rows;
    if around > point.len() || around > vars || !roomy {
        return false;
    }
    let values = &point[..around];
    // Without hidden variables the rows decide.
    if around == vars {
        system.holds(values)
    } else {
        has_point(system, values, room)
    }
}

#[cycle(walk)]
fn walk_all(
    setting: &Setting,
    plans: &[Plan],
    point: &mut [i64],
    cells: &mut [i64],
    tally: &mut Tally,
    room: &mut Room,
)
    requires lines { IsDivisor setting.now.lines }
    requires width { IsDivisor setting.now.width }
    requires vars { room.old.vars ≡ setting.now.vars }
    requires rows { room.old.rows ≡ setting.now.rows }
    requires depth { length tally.old.last.items ≡ length point.old }
    ensures depth { length tally.new.last.items ≡ length point.old }
    ensures room { room.new ≡ room.old }
    ensures point { point.new ≡ point.old }
    ensures cells { cells.new
        ≡ run_plans setting.now.vars setting.now.rows plans.now point.old cells.old }
    ensures meter { state tally.new
        ≡ meter_plans setting.now plans.now point.old (state tally.old) }
{
    for plan in plans {
        walk(setting, plan, point, cells, tally, room);
    }
}

/// Does what the plan does to the cells and to the meter. The point has the values of the loops
/// around; those of the loops inside are written into it, and it is put back.
#[cycle(walk)]
pub fn walk(
    setting: &Setting,
    plan: &Plan,
    point: &mut [i64],
    cells: &mut [i64],
    tally: &mut Tally,
    room: &mut Room,
)
    requires lines { IsDivisor setting.now.lines }
    requires width { IsDivisor setting.now.width }
    requires vars { room.old.vars ≡ setting.now.vars }
    requires rows { room.old.rows ≡ setting.now.rows }
    requires depth { length tally.old.last.items ≡ length point.old }
    ensures depth { length tally.new.last.items ≡ length point.old }
    ensures room { room.new ≡ room.old }
    ensures point { point.new ≡ point.old }
    ensures cells { cells.new
        ≡ run_plan setting.now.vars setting.now.rows plan.now point.old cells.old }
    ensures meter { state tally.new ≡ meter_plan setting.now plan.now point.old (state tally.old) }
{
    match plan {
        Plan::Seq(plans) => walk_all(setting, plans.as_slice(), point, cells, tally, room),
        Plan::Loop {
            level,
            lows,
            highs,
            inner,
        } => {
            let low = greatest_low(lows.as_slice(), point);
            let high = least_high(highs.as_slice(), point);
            let turns = turns_between(low, high);
            let level = *level;
            let before = read(point, level);
            for k in 0..turns {
                written(point, level, nth_between(low, high, k));
                walk(setting, inner.get(), point, cells, tally, room);
            }
            written(point, level, before);
        }
        Plan::Guard {
            system,
            around,
            inner,
        } => {
            if passes(setting, system, *around, point, room) {
                walk(setting, inner.get(), point, cells, tally, room);
            }
        }
        Plan::Leaf { leaf, write, right } => {
            begin(setting, *leaf, point, tally);
            let value = right_value(setting, right, point, cells, tally);
            let place = spot_place(write, point);
            touch(setting, place, tally);
            written(cells, place, value);
        }
    }
}
