//! Equalities that follow from those among the rows: whole-number elimination from the last
//! variable backwards, to a reduced echelon form (Gauss and Jordan's, without fractions). A line
//! has one variable that no other line has, and beside it only variables that no line was solved
//! for. As of the simplex, nothing is claimed of what is found here.

use crate::divisor::gcd;
use crate::negative::is_negative;
use crate::simplex::{Shape, get, narrowed, number, place, product, put};
use ch_affine::Aff;

const STEPS: u32 = 64;

fn find(shape: Shape, rows: &[Aff], space: &mut [i64]) -> usize {
    let mut count = 0usize;
    for i in 0..rows.len() {
        for j in i + 1..rows.len() {
            if count < shape.vars && is_negative(&rows[i], &rows[j]) {
                put(space, shape.basic(count), number(i));
                put(space, shape.other(count), number(j));
                count = count.wrapping_add(1);
                break;
            }
        }
    }
    count
}

fn cell(shape: Shape, line: usize, col: usize) -> usize {
    let width = shape.vars.wrapping_add(1).wrapping_mul(2);
    line.wrapping_mul(width).wrapping_add(col)
}

/// Writes the equalities in the variables that are open, and finds others. Answers their number.
pub fn equalities(rows: &[Aff], lows: &[i64], highs: &[i64], space: &mut [i64]) -> usize {
    let shape = Shape {
        vars: lows.len(),
        rows: rows.len(),
    };
    if space.len() < shape.len() {
        return 0;
    }
    let count = find(shape, rows, space);
    for e in 0..count {
        let i = place(get(space, shape.basic(e)));
        if i < rows.len() {
            let row = &rows[i];
            let coefs = row.coefs.as_slice();
            for j in 0..shape.vars {
                let is_fixed = get(lows, j) == get(highs, j);
                let coef = if is_fixed { 0 } else { get(coefs, j) };
                put(space, cell(shape, e, j), coef);
            }
        }
        for k in 0..count {
            let unit = if k == e { 1 } else { 0 };
            put(space, cell(shape, e, shape.vars.wrapping_add(k)), unit);
        }
    }
    let mut top = 0usize;
    for back in 1..shape.vars.wrapping_add(1) {
        if top < count {
            let col = shape.vars.wrapping_sub(back);
            if eliminate(shape, count, top, col, space) {
                for e in 0..top {
                    reduce(shape, count, top, e, col, space);
                }
                top = top.wrapping_add(1);
            }
        }
    }
    count
}

/// Takes the variable out of all lines below `top`, which keeps it. False where none had it.
fn eliminate(shape: Shape, count: usize, top: usize, col: usize, space: &mut [i64]) -> bool {
    for _ in 0..STEPS {
        let mut least = count;
        let mut size = 0u64;
        for e in top..count {
            let here = get(space, cell(shape, e, col)).unsigned_abs();
            if here != 0 && (size == 0 || here < size) {
                least = e;
                size = here;
            }
        }
        if size == 0 {
            return false;
        }
        let width = shape.vars.wrapping_add(count);
        for j in 0..width {
            let x = get(space, cell(shape, top, j));
            put(
                space,
                cell(shape, top, j),
                get(space, cell(shape, least, j)),
            );
            put(space, cell(shape, least, j), x);
        }
        let pivot = get(space, cell(shape, top, col));
        let mut left = false;
        for e in top.wrapping_add(1)..count {
            let here = get(space, cell(shape, e, col));
            let times = if pivot == 0 || pivot == -1 {
                here.wrapping_neg()
            } else {
                here / pivot
            };
            if times != 0 {
                for j in 0..width {
                    let more = product(times, get(space, cell(shape, top, j)));
                    let value = (get(space, cell(shape, e, j)) as i128).wrapping_sub(more);
                    put(space, cell(shape, e, j), narrowed(value));
                }
            }
            left = left || get(space, cell(shape, e, col)) != 0;
        }
        if !left {
            return true;
        }
    }
    true
}

/// Takes the variable out of a line above `top` too, and a common divisor out of that line.
fn reduce(shape: Shape, count: usize, top: usize, line: usize, col: usize, space: &mut [i64]) {
    let pivot = get(space, cell(shape, top, col));
    let here = get(space, cell(shape, line, col));
    let Ok(common) = i64::try_from(gcd(pivot.unsigned_abs(), here.unsigned_abs())) else {
        return;
    };
    if here == 0 || common <= 0 {
        return;
    }
    let width = shape.vars.wrapping_add(count);
    let mut divisor = 0u64;
    for j in 0..width {
        let ours = product(pivot / common, get(space, cell(shape, line, j)));
        let more = product(here / common, get(space, cell(shape, top, j)));
        let left = narrowed(ours.wrapping_sub(more));
        divisor = gcd(divisor, left.unsigned_abs());
        put(space, cell(shape, line, j), left);
    }
    let Ok(divisor) = i64::try_from(divisor) else {
        return;
    };
    if divisor > 1 {
        for j in 0..width {
            let left = get(space, cell(shape, line, j)) / divisor;
            put(space, cell(shape, line, j), left);
        }
    }
}

/// Leaves the factors of one of them, or of its negative.
pub fn load(
    vars: usize,
    rows: usize,
    count: usize,
    line: usize,
    negative: bool,
    space: &mut [i64],
) {
    let shape = Shape { vars, rows };
    for i in 0..rows {
        put(space, shape.factor(i), 0);
    }
    for k in 0..count {
        let factor = get(space, cell(shape, line, vars.wrapping_add(k)));
        let first = (factor < 0) == negative;
        let from = if first {
            shape.basic(k)
        } else {
            shape.other(k)
        };
        let row = place(get(space, from));
        put(space, shape.factor(row), factor.wrapping_abs());
    }
}
