//! Factors for the rows, by an exact dual simplex in whole numbers with a common denominator
//! (Edmonds 1967, Bareiss 1968).
//!
//! Nothing is claimed of them and nothing need be: any numbers that are at least 0 give a row that
//! follows. So all of this wraps, reads 0 outside its space and writes nothing there, and gives up
//! where a number passes 2^62.

use ch_affine::Aff;

const LIMIT: u128 = 1 << 62;

const PIVOTS: u32 = 60;

/// Where the parts lie in one slice of numbers: a line of cells for each row and one for the
/// objective, and beside them the variables' places.
#[derive(Debug, Clone, Copy)]
pub struct Shape {
    pub vars: usize,
    pub rows: usize,
}

impl Shape {
    pub fn cell(self, row: usize, col: usize) -> usize {
        row.wrapping_mul(self.vars.wrapping_add(2))
            .wrapping_add(col)
    }

    /// The factor of a row.
    pub fn factor(self, row: usize) -> usize {
        self.cell(self.rows.wrapping_add(1), 0).wrapping_add(row)
    }

    /// The variable of a line: a number of a slack is above those of the system's variables.
    pub fn basic(self, row: usize) -> usize {
        self.factor(self.rows).wrapping_add(row)
    }

    /// The variable of a column.
    pub fn other(self, col: usize) -> usize {
        self.basic(self.rows).wrapping_add(col)
    }

    /// Whether the column's variable is at its high.
    pub fn up(self, col: usize) -> usize {
        self.other(self.vars).wrapping_add(col)
    }

    /// The column's number.
    pub fn end(self, col: usize) -> usize {
        self.up(self.vars).wrapping_add(col)
    }

    pub fn len(self) -> usize {
        self.end(self.vars)
    }
}

/// The numbers that `multipliers` works on, and two more for each variable. 0 where they would be
/// too many.
pub fn space_len(vars: usize, rows: usize) -> usize {
    if vars > 1 << 10 || rows > 1 << 10 {
        return 0;
    }
    let lines = vars.wrapping_mul(2);
    lines.wrapping_add(Shape { vars, rows }.len())
}

pub fn get(numbers: &[i64], k: usize) -> i64 {
    if k < numbers.len() { numbers[k] } else { 0 }
}

pub fn put(numbers: &mut [i64], k: usize, value: i64) {
    if k < numbers.len() {
        numbers[k] = value;
    }
}

/// The factor of a row that the last call of `multipliers` left.
pub fn factor(vars: usize, rows: usize, space: &[i64], row: usize) -> i64 {
    get(space, Shape { vars, rows }.factor(row))
}

/// Leaves a factor for each row, such that the rows' sum bounds variable `k` from below in the box
/// as well as any sum does, or contradicts the box. False where there is none.
pub fn multipliers(rows: &[Aff], lows: &[i64], highs: &[i64], k: usize, space: &mut [i64]) -> bool {
    let shape = Shape {
        vars: lows.len(),
        rows: rows.len(),
    };
    if space.len() < shape.len() {
        return false;
    }
    start(shape, rows, lows, k, space);
    let mut den = 1i64;
    for _ in 0..PIVOTS {
        let Some((row, below)) = worst(shape, lows, highs, den, space) else {
            break;
        };
        let Some(col) = entering(shape, lows, highs, row, below, space) else {
            contradiction(shape, row, below, den, space);
            return true;
        };
        let Some(next) = pivot(shape, row, col, den, space) else {
            return false;
        };
        den = next;
        exchange(shape, lows, highs, row, col, below, space);
    }
    objective(shape, space)
}

fn start(shape: Shape, rows: &[Aff], lows: &[i64], k: usize, space: &mut [i64]) {
    for i in 0..rows.len() {
        let row = &rows[i];
        let coefs = row.coefs.as_slice();
        for j in 0..coefs.len() {
            put(space, shape.cell(i, j), coefs[j]);
        }
        put_constant(shape, i, i128::from(row.constant), space);
        put(space, shape.basic(i), number(shape.vars.wrapping_add(i)));
        put(space, shape.factor(i), 0);
    }
    for j in 0..lows.len() {
        put(space, shape.cell(shape.rows, j), 0);
        put(space, shape.other(j), number(j));
        put(space, shape.up(j), 0);
        put(space, shape.end(j), lows[j]);
    }
    put(space, shape.cell(shape.rows, k), 1);
}

pub fn number(k: usize) -> i64 {
    match i64::try_from(k) {
        Ok(number) => number,
        Err(_) => 0,
    }
}

pub fn place(number: i64) -> usize {
    match usize::try_from(number) {
        Ok(k) => k,
        Err(_) => 0,
    }
}

pub fn narrowed(value: i128) -> i64 {
    match i64::try_from(value) {
        Ok(number) => number,
        Err(_) => 0,
    }
}

const DIGIT: i128 = 1 << 60;

/// A line's constant, which takes two cells.
fn constant(shape: Shape, row: usize, space: &[i64]) -> i128 {
    let high = get(space, shape.cell(row, shape.vars.wrapping_add(1))) as i128;
    let low = get(space, shape.cell(row, shape.vars)) as i128;
    high.wrapping_mul(DIGIT).wrapping_add(low)
}

fn put_constant(shape: Shape, row: usize, value: i128, space: &mut [i64]) {
    let high = shape.cell(row, shape.vars.wrapping_add(1));
    put(space, high, narrowed(value / DIGIT));
    put(space, shape.cell(row, shape.vars), narrowed(value % DIGIT));
}

pub fn product(x: i64, y: i64) -> i128 {
    x as i128 * y as i128
}

/// The line whose variable is the furthest outside its range, and whether it is below it.
fn worst(
    shape: Shape,
    lows: &[i64],
    highs: &[i64],
    den: i64,
    space: &[i64],
) -> Option<(usize, bool)> {
    let mut found = None;
    let mut most = 0i128;
    for i in 0..shape.rows {
        let mut value = constant(shape, i, space);
        for j in 0..shape.vars {
            let cell = get(space, shape.cell(i, j));
            if cell != 0 {
                value = value.wrapping_add(product(cell, get(space, shape.end(j))));
            }
        }
        let variable = place(get(space, shape.basic(i)));
        if variable < lows.len() {
            let below = product(get(lows, variable), den).wrapping_sub(value);
            let above = value.wrapping_sub(product(get(highs, variable), den));
            if below > most {
                most = below;
                found = Some((i, true));
            }
            if above > most {
                most = above;
                found = Some((i, false));
            }
        } else {
            let below = 0i128.wrapping_sub(value);
            if below > most {
                most = below;
                found = Some((i, true));
            }
        }
    }
    found
}

/// The column whose variable moves the line's towards its range at the least cost for the
/// objective.
fn entering(
    shape: Shape,
    lows: &[i64],
    highs: &[i64],
    row: usize,
    below: bool,
    space: &[i64],
) -> Option<usize> {
    let mut found = None;
    let mut best_cost = 0u64;
    let mut best_size = 0u64;
    for j in 0..shape.vars {
        let cell = get(space, shape.cell(row, j));
        let variable = place(get(space, shape.other(j)));
        let is_fixed = variable < lows.len() && get(lows, variable) == get(highs, variable);
        let is_up = get(space, shape.up(j)) != 0;
        if cell == 0 || is_fixed || (cell > 0) != (below != is_up) {
            continue;
        }
        let size = cell.unsigned_abs();
        let cost = get(space, shape.cell(shape.rows, j)).unsigned_abs();
        let left = cost as u128 * best_size as u128;
        let right = best_cost as u128 * size as u128;
        if best_size == 0 || left < right || (left == right && size > best_size) {
            found = Some(j);
            best_cost = cost;
            best_size = size;
        }
    }
    found
}

/// The line says that no point is in the box: its columns are the factors.
fn contradiction(shape: Shape, row: usize, below: bool, den: i64, space: &mut [i64]) {
    for j in 0..shape.vars {
        let variable = place(get(space, shape.other(j)));
        if variable >= shape.vars {
            let cell = get(space, shape.cell(row, j));
            let factor = if below { cell.wrapping_neg() } else { cell };
            put(
                space,
                shape.factor(variable.wrapping_sub(shape.vars)),
                factor,
            );
        }
    }
    let variable = place(get(space, shape.basic(row)));
    if variable >= shape.vars {
        put(space, shape.factor(variable.wrapping_sub(shape.vars)), den);
    }
}

/// The objective's columns are the factors.
fn objective(shape: Shape, space: &mut [i64]) -> bool {
    let mut any = false;
    for j in 0..shape.vars {
        let variable = place(get(space, shape.other(j)));
        let cost = get(space, shape.cell(shape.rows, j));
        if variable >= shape.vars && cost > 0 {
            put(space, shape.factor(variable.wrapping_sub(shape.vars)), cost);
            any = true;
        }
    }
    any
}

/// Solves the line for the column's variable, and puts it into the other lines. Answers the new
/// denominator.
fn pivot(shape: Shape, row: usize, col: usize, den: i64, space: &mut [i64]) -> Option<i64> {
    let cell = get(space, shape.cell(row, col));
    let size = cell.wrapping_abs();
    for i in 0..shape.rows.wrapping_add(1) {
        if i == row {
            continue;
        }
        let there = get(space, shape.cell(i, col));
        let factor = if cell < 0 {
            there.wrapping_neg()
        } else {
            there
        };
        if factor == 0 && size == den {
            continue;
        }
        for j in 0..shape.vars {
            if j == col {
                continue;
            }
            let at = shape.cell(i, j);
            let here = product(size, get(space, at));
            let value = here.wrapping_sub(product(factor, get(space, shape.cell(row, j))));
            let part = divided(value, den);
            if part.unsigned_abs() > LIMIT {
                return None;
            }
            put(space, at, narrowed(part));
        }
        put(space, shape.cell(i, col), factor);
        if i < shape.rows {
            let here = constant(shape, i, space).checked_mul(size as i128)?;
            let there = constant(shape, row, space).checked_mul(factor as i128)?;
            put_constant(shape, i, divided(here.checked_sub(there)?, den), space);
        }
    }
    if cell > 0 {
        let value = constant(shape, row, space);
        put_constant(shape, row, 0i128.wrapping_sub(value), space);
    }
    for j in 0..shape.vars {
        let at = shape.cell(row, j);
        if cell > 0 {
            put(space, at, get(space, at).wrapping_neg());
        }
    }
    let whole = if cell < 0 { den.wrapping_neg() } else { den };
    put(space, shape.cell(row, col), whole);
    Some(size)
}

fn divided(value: i128, den: i64) -> i128 {
    if den <= 1 {
        return value;
    }
    match i64::try_from(value) {
        Ok(small) => (small / den) as i128,
        Err(_) => value / den as i128,
    }
}

/// The line's variable goes to the end of its range that it had passed, and the column's becomes
/// the line's.
fn exchange(
    shape: Shape,
    lows: &[i64],
    highs: &[i64],
    row: usize,
    col: usize,
    below: bool,
    space: &mut [i64],
) {
    let leaving = get(space, shape.basic(row));
    let coming = get(space, shape.other(col));
    put(space, shape.basic(row), coming);
    put(space, shape.other(col), leaving);
    let variable = place(leaving);
    let end = if variable >= shape.vars {
        0
    } else if below {
        get(lows, variable)
    } else {
        get(highs, variable)
    };
    put(space, shape.up(col), if below { 0 } else { 1 });
    put(space, shape.end(col), end);
}
