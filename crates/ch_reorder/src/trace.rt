//! The elements that generated code executes, found by walking it as its text reads: plain, and
//! apart from the definition of a trace.

use ch_affine::{Aff, System};
use ch_code::{Bound, Code, Unit};
use ch_poly::{Room, has_point};
use ch_timed::{Element, Identity, Label};
use std::alloc::{AllocError, Global};

/// The most steps of a walk. The code of pieces with hidden values runs over whole boxes, and may
/// take more.
const MOST_STEPS: u32 = 100_000;

/// What is left to do.
#[derive(Drop)]
enum Task<'a> {
    Run(&'a Code),
    /// The turns of a loop from a value on.
    Turns {
        inner: &'a Code,
        value: i64,
        high: i64,
    },
    /// The turn of the innermost loop ends.
    Leave,
}

/// The value of a form.
fn value(form: &Aff, values: &[i64]) -> i64 {
    let mut sum = form.constant;
    for (coef, value) in form.coefs.as_slice().iter().zip(values) {
        sum = sum.wrapping_add(coef.wrapping_mul(*value));
    }
    sum
}

/// The least value that a loop with this low may take.
fn low(bound: &Bound, values: &[i64]) -> i64 {
    let divisor = i64::from(bound.divisor.max(1));
    value(&bound.form, values)
        .wrapping_neg()
        .div_euclid(divisor)
        .wrapping_neg()
}

/// The greatest value that a loop with this high may take.
fn high(bound: &Bound, values: &[i64]) -> i64 {
    let divisor = i64::from(bound.divisor.max(1));
    value(&bound.form, values).div_euclid(divisor)
}

fn greatest_low(bounds: &[Bound], values: &[i64]) -> i64 {
    let mut greatest = i64::MIN;
    for bound in bounds {
        greatest = greatest.max(low(bound, values));
    }
    greatest
}

fn least_high(bounds: &[Bound], values: &[i64]) -> i64 {
    let mut least = i64::MAX;
    for bound in bounds {
        least = least.min(high(bound, values));
    }
    least
}

/// Whether some point of the system begins with the values.
fn holds(alloc: Global, system: &System, values: &[i64]) -> Result<bool, AllocError> {
    let mut room = Room::of(alloc, system.vars, system.rows.len())?;
    if values.len() > system.vars as usize {
        return Ok(false);
    }
    Ok(has_point(system, values, &mut room))
}

/// Whether the element is that of a leaf at these values.
fn is_element(
    element: &Element,
    label: Label,
    origin: &[Aff],
    places: &[u32],
    values: &[i64],
) -> bool {
    let Identity { label: own, iters } = &element.identity;
    let vector = element.vector.as_slice();
    if *own != label || iters.len() != origin.len() {
        return false;
    }
    for k in 0..origin.len() {
        if iters.as_slice().get(k) != Some(&value(&origin[k], values)) {
            return false;
        }
    }
    for k in 0..vector.len() {
        let number = if k % 2 == 0 {
            places.get(k / 2).map(|place| i64::from(*place))
        } else {
            values.get(k / 2).copied()
        };
        if number != Some(vector[k]) {
            return false;
        }
    }
    vector.len() == places.len().saturating_add(values.len())
}

/// A walk over code, beside the elements that it is to execute.
#[derive(Drop)]
struct Walk<'a> {
    tasks: Vec<Task<'a>>,
    values: Vec<i64>,
    executed: usize,
    turns: u32,
    fits: bool,
}

impl<'a> Walk<'a> {
    fn run(
        &mut self,
        alloc: Global,
        code: &'a Code,
        elements: &[Element],
    ) -> Result<(), AllocError> {
        match code {
            Code::Seq(parts) => {
                for part in parts.as_slice().iter().rev() {
                    self.tasks.push(Task::Run(part))?;
                }
            }
            Code::Loop {
                lows,
                highs,
                inner,
                ..
            } => {
                let value = greatest_low(lows.as_slice(), &self.values);
                let high = least_high(highs.as_slice(), &self.values);
                let inner = inner.get();
                self.tasks.push(Task::Turns { inner, value, high })?;
            }
            Code::Guard { system, inner } => {
                if holds(alloc, system, &self.values)? {
                    self.tasks.push(Task::Run(inner.get()))?;
                }
            }
            Code::Leaf {
                label,
                origin,
                places,
                ..
            } => {
                self.fits &= match elements.get(self.executed) {
                    None => false,
                    Some(element) => is_element(
                        element,
                        *label,
                        origin.as_slice(),
                        places.as_slice(),
                        &self.values,
                    ),
                };
                self.executed = self.executed.saturating_add(1);
            }
        }
        Ok(())
    }

    fn turn(&mut self, inner: &'a Code, value: i64, high: i64) -> Result<(), AllocError> {
        if value > high {
            return Ok(());
        }
        if value < high {
            let value = value + 1;
            self.tasks.push(Task::Turns { inner, value, high })?;
        }
        self.tasks.push(Task::Leave)?;
        self.turns = self.turns.saturating_add(1);
        self.values.push(value)?;
        self.tasks.push(Task::Run(inner))?;
        Ok(())
    }
}

/// What a walk over code found.
#[derive(Clone, Copy)]
pub(crate) struct Walked {
    /// Whether the code executes the elements, in order. Code that takes too many steps isn't
    /// walked to its end.
    pub(crate) fits: bool,
    /// How many turns its loops took.
    pub(crate) turns: u32,
}

/// Walks the code beside the elements that it is to execute.
pub(crate) fn walk_over(
    alloc: Global,
    unit: &Unit,
    elements: &[Element],
) -> Result<Walked, AllocError> {
    let mut walk = Walk {
        tasks: Vec::new(alloc),
        values: Vec::new(alloc),
        executed: 0,
        turns: 0,
        fits: true,
    };
    walk.tasks.push(Task::Run(&unit.root))?;
    for _ in 0..MOST_STEPS {
        match walk.tasks.pop() {
            None => {
                let fits = walk.fits && walk.executed == elements.len();
                let turns = walk.turns;
                return Ok(Walked { fits, turns });
            }
            Some(Task::Run(code)) => walk.run(alloc, code, elements)?,
            Some(Task::Turns { inner, value, high }) => walk.turn(inner, value, high)?,
            Some(Task::Leave) => {
                walk.values.pop();
            }
        }
    }
    Ok(Walked {
        fits: walk.fits,
        turns: walk.turns,
    })
}

/// What stands in code.
#[derive(Clone, Copy)]
pub(crate) struct Parts {
    pub(crate) loops: u32,
    pub(crate) statements: u32,
}

/// Counts the loops and statements of code.
pub(crate) fn parts_of(alloc: Global, root: &Code) -> Result<Parts, AllocError> {
    let mut found = Parts {
        loops: 0,
        statements: 0,
    };
    let mut open = Vec::new(alloc);
    open.push(root)?;
    for _ in 0..MOST_STEPS {
        match open.pop() {
            None => break,
            Some(Code::Seq(parts)) => {
                for part in parts.as_slice() {
                    open.push(part)?;
                }
            }
            Some(Code::Loop { inner, .. }) => {
                found.loops = found.loops.saturating_add(1);
                open.push(inner.get())?;
            }
            Some(Code::Guard { inner, .. }) => open.push(inner.get())?,
            Some(Code::Leaf { .. }) => found.statements = found.statements.saturating_add(1),
        }
    }
    Ok(found)
}
