ghost use Rattle.std.specs.Prelude.{◌≡◌, ◌<◌, ◌≤◌, ◌+◌, ◌^◌, ℤ, pos, ◌+ℤ◌, ◌*ℤ◌};
ghost use Rattle.std.specs.Prelude.{map, unsigned_abs, slice_index_or, slice_set};
ghost use Rattle.std.specs.Int.{int_wrap, w64};
ghost use Rattle.ch_affine.specs.Affine.{IsAtMost, value};
ghost use Rattle.ch_nest.specs.Fast.{flat_place, flat_value, near, run_flat, run_flats, wrapped};
ghost use Rattle.ch_nest.specs.Run.{high_of, is_met, low_of};

use crate::limits::MOST_AFFINE;
use crate::run::{minus, negated, plus, times};
use ch_affine::{Aff, Boxed, List};

/// A right side in which each access is one form: the flat index of the cell among all cells.
#[derive(Debug, Drop)]
pub(crate) enum FlatExpr {
    Number(i64),
    Iter(u32),
    Read(Aff),
    Neg(Boxed<FlatExpr>),
    Add(Boxed<FlatExpr>, Boxed<FlatExpr>),
    Sub(Boxed<FlatExpr>, Boxed<FlatExpr>),
    Mul(Boxed<FlatExpr>, Boxed<FlatExpr>),
}

/// An item in which each access is one form. A loop knows how many loops stand around it.
///
/// The ends of loops and the rows of conditions are taken in 128 bits: a row's coefficients reach
/// 2^31 and values of loops 2^30, so that its value need not fit into 64. The places of cells do,
/// and wrap on the way.
#[derive(Debug, Drop)]
pub(crate) enum FlatItem {
    Loop {
        level: u32,
        lows: List<Aff>,
        highs: List<Aff>,
        step: u32,
        items: List<FlatItem>,
    },
    If {
        row: Aff,
        items: List<FlatItem>,
    },
    Assign {
        write: Aff,
        right: FlatExpr,
    },
}

/// The values of six loops.
type Point = [i64; 6];

/// The value of a form, wrapped at 64 bits.
fn wrapped(form: &Aff, point: &[i64]) -> i64
    ensures { result ≡ wrapped form.now point.now }
{
    let coefs = form.coefs.as_slice();
    let terms = coefs.len().min(point.len());
    let mut sum = form.constant;
    for k in 0..terms {
        sum = plus(sum, times(coefs[k], point[k]));
    }
    sum
}

fn flat_place(form: &Aff, point: &[i64]) -> usize
    ensures { result ≡ flat_place form.now point.now }
{
    wrapped(form, point).unsigned_abs() as usize
}

fn read(numbers: &[i64], at: usize) -> i64
    ensures { result ≡ slice_index_or numbers.now at (pos 0) }
{
    if at < numbers.len() { numbers[at] } else { 0 }
}

fn written(numbers: &mut [i64], at: usize, value: i64)
    ensures { numbers.new ≡ slice_set numbers.old at value }
{
    if at < numbers.len() {
        numbers[at] = value;
    }
}

fn flat_value(expr: &FlatExpr, point: &[i64], cells: &[i64]) -> i64
    ensures { result ≡ flat_value point.now cells.now expr.now }
{
    match expr {
        FlatExpr::Number(n) => *n,
        FlatExpr::Iter(k) => read(point, *k as usize),
        FlatExpr::Read(form) => read(cells, flat_place(form, point)),
        FlatExpr::Neg(x) => negated(flat_value(x.get(), point, cells)),
        FlatExpr::Add(x, y) => {
            let left = flat_value(x.get(), point, cells);
            let right = flat_value(y.get(), point, cells);
            plus(left, right)
        }
        FlatExpr::Sub(x, y) => {
            let left = flat_value(x.get(), point, cells);
            let right = flat_value(y.get(), point, cells);
            minus(left, right)
        }
        FlatExpr::Mul(x, y) => {
            let left = flat_value(x.get(), point, cells);
            let right = flat_value(y.get(), point, cells);
            times(left, right)
        }
    }
}

fn product(coef: i64, x: i64) -> i128
    requires { IsAtMost (2 ^ 60) coef }
    ensures value { result ≡ coef *ℤ x }
    ensures bound { IsAtMost (2 ^ 123) result }
{
    i128::from(coef) * i128::from(x)
}

fn sum(x: i128, y: i128) -> i128
    requires { unsigned_abs x + unsigned_abs y ≤ 2 ^ 126 }
    ensures value { result ≡ x +ℤ y }
    ensures bound { unsigned_abs result ≤ unsigned_abs x + unsigned_abs y }
{
    x + y
}

/// The exact value of a form.
fn exact(form: &Aff, point: &Point) -> i128
    ensures value { result ≡ value form.now point.now }
    ensures bound { IsAtMost (2 ^ 126) result }
{
    let coefs = form.coefs.as_slice();
    let terms = coefs.len().min(point.len());
    let mut value = i128::from(form.constant);
    for k in 0..terms {
        value = sum(value, product(coefs[k], point[k]));
    }
    value
}

#[tactic(auto, using(crate::proofs::Rests::all_rest))]
fn low_at(lows: &[Aff], point: &Point) -> i128
    ensures value { result ≡ low_of lows.now point.now }
    ensures bound { IsAtMost (2 ^ 126) result }
{
    match lows {
        [] => 0,
        [only] => exact(only, point),
        [first, others @ ..] => exact(first, point).max(low_at(others, point)),
    }
}

#[tactic(auto, using(crate::proofs::Rests::all_rest))]
fn high_at(highs: &[Aff], point: &Point) -> i128
    ensures value { result ≡ high_of highs.now point.now }
    ensures bound { IsAtMost (2 ^ 126) result }
{
    match highs {
        [] => 0,
        [only] => exact(only, point),
        [first, others @ ..] => exact(first, point).min(high_at(others, point)),
    }
}

fn raised(value: i128, step: u32) -> i128
    requires { IsAtMost (2 ^ 126) value }
    ensures { result ≡ value +ℤ pos step }
{
    value + i128::from(step)
}

fn holds(row: &Aff, point: &Point) -> bool
    ensures { result ≡ is_met row.now point.now }
{
    0 <= exact(row, point)
}

/// A loop's value, or 0 where it is past the limit of loop ends.
fn near(value: i128) -> i64
    ensures { result ≡ near value }
{
    if value.unsigned_abs() <= u128::from(MOST_AFFINE) {
        value as i64
    } else {
        0
    }
}

/// The point with the value of one loop in its place.
fn moved(point: &Point, level: u32, value: i64) -> Point
    ensures { result ≡ slice_set point.now level value }
{
    let mut inner = *point;
    written(&mut inner, level as usize, value);
    inner
}

/// Does what the items do, in order. It asks nothing of them: a place that isn't there reads as 0
/// and isn't written.
#[cycle(flat)]
#[tactic(auto, using(crate::proofs::FlatRuns::run_flats_more))]
pub(crate) fn run_flats(items: &[FlatItem], point: &Point, cells: &mut [i64])
    ensures { cells.new ≡ run_flats items.now point.now cells.old }
{
    for item in items {
        run_flat(item, point, cells);
    }
}

#[cycle(flat)]
fn run_flat(item: &FlatItem, point: &Point, cells: &mut [i64])
    ensures { cells.new ≡ run_flat item.now point.now cells.old }
{
    match item {
        FlatItem::Assign { write, right } => {
            let value = flat_value(right, point, cells);
            written(cells, flat_place(write, point), value);
        }
        FlatItem::Loop {
            level,
            lows,
            highs,
            step,
            items,
        } => {
            // Without a step there is no turn.
            if *step == 0 {
                return;
            }
            let mut value = low_at(lows.as_slice(), point);
            let high = high_at(highs.as_slice(), point);
            'turns: while value <= high {
                let inner = moved(point, *level, near(value));
                run_flats(items.as_slice(), &inner, cells);
                value = raised(value, *step);
            }
        }
        FlatItem::If { row, items } => {
            if holds(row, point) {
                run_flats(items.as_slice(), point, cells);
            }
        }
    }
}
