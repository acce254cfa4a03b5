//! The rows, boxes and forms of the piece of a statement, made from the loops and conditions around
//! it.

ghost use Rattle.std.specs.Prelude.{◌≡◌, ◌≤◌, ◌≤ℤ◌, ◌<◌, ◌+◌, ◌*◌, ◌^◌, ℤ, neg_ℤ};
ghost use Rattle.std.specs.Prelude.{[], ◌∷◌, ◌++◌, length, map, IfOk, OnOk};
ghost use Rattle.std.specs.List.{All};
ghost use Rattle.ch_affine.specs.Affine.{IsAtMost};
ghost use Rattle.ch_nest.specs.Limits.{deepest, most_step};
ghost use Rattle.ch_nest.specs.Shape.{IsSmall};
ghost use Rattle.ch_space.specs.Built.{boxes_from, hidden_boxes, hidden_range};
ghost use Rattle.ch_space.specs.Built.{high_row, level_rows, low_row, padded};
ghost use Rattle.ch_space.specs.Built.{padded_row, part_rows, rows_of, step_rows};
ghost use Rattle.ch_space.specs.Built.{steps_high, steps_low, unit, units, zeros};
ghost use Rattle.ch_space.specs.Fitting.{IsShort, IsShortPart, LevelsFit};
ghost use Rattle.ch_space.specs.Statements.{hidden_of, loops, steps};
ghost use Rattle.ch_space.specs.declared.level.Around.TheVariants.{Inside};

use crate::level::{Around, Level};
use ch_affine::{Aff, List, Range};
use ch_nest::boxes::small_box;
use std::alloc::{AllocError, Global};

fn push_zeros(numbers: &mut List<i64>, count: usize) -> Result<(), AllocError>
    ensures { OnOk result (numbers.new ≡ numbers.old ++ zeros count) }
{
    for _k in 0..count {
        numbers.push(0)?;
    }
    Ok(())
}

/// Coefficients of so many variables, those after the given ones being 0.
fn push_padding(coefs: &mut List<i64>, variables: usize) -> Result<(), AllocError>
    requires { length coefs.old ≤ variables }
    ensures { OnOk result (coefs.new ≡ padded variables coefs.old) }
{
    let missing = variables - coefs.len();
    push_zeros(coefs, missing)
}

fn negated(alloc: Global, numbers: &[i64]) -> Result<List<i64>, AllocError>
    requires { All (IsAtMost (2 ^ 60)) numbers.now }
    ensures { IfOk result (λ negated. negated ≡ map neg_ℤ numbers.now) }
{
    let mut negated = List::with_capacity(alloc, numbers.len())?;
    for number in numbers {
        negated.push(-*number)?;
    }
    Ok(negated)
}

/// The row which says that a loop's value is at least that of a form of the loops around it.
fn low_row(alloc: Global, loops: usize, form: &Aff) -> Result<Aff, AllocError>
    requires around { length form.now.coefs < loops }
    requires few { loops ≤ 2 * deepest }
    ensures { IfOk result (λ row. row ≡ low_row loops form.now) }
{
    let mut coefs = negated(alloc, form.coefs.as_slice())?;
    coefs.push(1)?;
    push_padding(&mut coefs, loops)?;
    Ok(Aff {
        coefs,
        constant: -form.constant,
    })
}

/// The row which says that a loop's value is at most that of a form of the loops around it.
fn high_row(alloc: Global, loops: usize, form: &Aff) -> Result<Aff, AllocError>
    requires around { length form.now.coefs < loops }
    requires few { loops ≤ 2 * deepest }
    ensures { IfOk result (λ row. row ≡ high_row loops form.now) }
{
    let mut coefs = List::from_slice(alloc, form.coefs.as_slice())?;
    coefs.push(-1)?;
    push_padding(&mut coefs, loops)?;
    Ok(Aff {
        coefs,
        constant: form.constant,
    })
}

fn push_low_rows(
    alloc: Global,
    rows: &mut List<Aff>,
    loops: usize,
    lows: &[Aff],
) -> Result<(), AllocError>
    requires around { All (λ f. length f.coefs < loops) lows.now }
    requires few { loops ≤ 2 * deepest }
    ensures { OnOk result (rows.new ≡ rows.old ++ map (low_row loops) lows.now) }
{
    for low in lows {
        rows.push(low_row(alloc, loops, low)?)?;
    }
    Ok(())
}

fn push_high_rows(
    alloc: Global,
    rows: &mut List<Aff>,
    loops: usize,
    highs: &[Aff],
) -> Result<(), AllocError>
    requires around { All (λ f. length f.coefs < loops) highs.now }
    requires few { loops ≤ 2 * deepest }
    ensures { OnOk result (rows.new ≡ rows.old ++ map (high_row loops) highs.now) }
{
    for high in highs {
        rows.push(high_row(alloc, loops, high)?)?;
    }
    Ok(())
}

/// The rows which say that a loop's value is that of a low end and so many steps, as the hidden
/// variable with number `at` tells.
fn steps_low(
    alloc: Global,
    loops: usize,
    at: usize,
    step: u32,
    form: &Aff,
) -> Result<Aff, AllocError>
    requires around { length form.now.coefs < at }
    requires hidden { at < loops }
    requires few { loops ≤ 2 * deepest }
    requires step { step ≤ most_step }
    ensures { IfOk result (λ row. row ≡ steps_low loops at step form.now) }
{
    let mut coefs = negated(alloc, form.coefs.as_slice())?;
    coefs.push(1)?;
    push_padding(&mut coefs, at)?;
    coefs.push(-i64::from(step))?;
    push_padding(&mut coefs, loops)?;
    Ok(Aff {
        coefs,
        constant: -form.constant,
    })
}

fn steps_high(
    alloc: Global,
    loops: usize,
    at: usize,
    step: u32,
    form: &Aff,
) -> Result<Aff, AllocError>
    requires around { length form.now.coefs < at }
    requires hidden { at < loops }
    requires few { loops ≤ 2 * deepest }
    requires step { step ≤ most_step }
    ensures { IfOk result (λ row. row ≡ steps_high loops at step form.now) }
{
    let mut coefs = List::from_slice(alloc, form.coefs.as_slice())?;
    coefs.push(-1)?;
    push_padding(&mut coefs, at)?;
    coefs.push(i64::from(step))?;
    push_padding(&mut coefs, loops)?;
    Ok(Aff {
        coefs,
        constant: form.constant,
    })
}

fn push_step_rows(
    alloc: Global,
    rows: &mut List<Aff>,
    loops: usize,
    at: usize,
    level: &Level,
) -> Result<(), AllocError>
    requires around { IsShort at level.now }
    requires hidden { at < loops }
    requires few { loops ≤ 2 * deepest }
    ensures { OnOk result
        (rows.new ≡ rows.old ++ step_rows loops at level.now.step level.now.lows) }
{
    for low in level.lows.as_slice() {
        rows.push(steps_low(alloc, loops, at, level.step, low)?)?;
        rows.push(steps_high(alloc, loops, at, level.step, low)?)?;
    }
    Ok(())
}

/// The row of a condition, over all variables.
fn padded_row(alloc: Global, loops: usize, row: &Aff) -> Result<Aff, AllocError>
    requires around { length row.now.coefs ≤ loops }
    requires few { loops ≤ 2 * deepest }
    ensures { IfOk result (λ padded. padded ≡ padded_row loops row.now) }
{
    let mut coefs = List::from_slice(alloc, row.coefs.as_slice())?;
    push_padding(&mut coefs, loops)?;
    Ok(Aff {
        coefs,
        constant: row.constant,
    })
}

fn push_level_rows(
    alloc: Global,
    rows: &mut List<Aff>,
    loops: usize,
    at: usize,
    level: &Level,
) -> Result<(), AllocError>
    requires around { IsShort at level.now }
    requires hidden { at + hidden_of (Inside level.now) ≤ loops }
    requires few { loops ≤ 2 * deepest }
    ensures { OnOk result (rows.new ≡ rows.old ++ level_rows loops at level.now) }
{
    if level.step == 1 {
        push_low_rows(alloc, rows, loops, level.lows.as_slice())?;
    } else {
        push_step_rows(alloc, rows, loops, at, level)?;
    }
    push_high_rows(alloc, rows, loops, level.highs.as_slice())
}

/// The rows of one loop or condition, where `at` is the number of the next hidden variable.
fn push_rows(
    alloc: Global,
    rows: &mut List<Aff>,
    loops: usize,
    at: usize,
    part: &Around,
) -> Result<(), AllocError>
    requires around { IsShortPart at part.now }
    requires hidden { at + hidden_of part.now ≤ loops }
    requires few { loops ≤ 2 * deepest }
    ensures { OnOk result (rows.new ≡ rows.old ++ part_rows loops at part.now) }
{
    match part {
        Around::Inside(level) => push_level_rows(alloc, rows, loops, at, level),
        Around::Where(row) => rows.push(padded_row(alloc, loops, row)?),
    }
}

/// How many hidden values a loop has: one, where its step is above 1.
fn hidden_of(part: &Around) -> usize
    ensures { result ≡ hidden_of part.now }
{
    match part {
        Around::Inside(level) => { if level.step == 1 { 0 } else { 1 } }
        Around::Where(_) => 0,
    }
}

/// How many hidden values these loops have.
#[tactic(auto, using(crate::proofs::Builds::steps_next, crate::proofs::Builds::steps_end))]
pub(crate) fn hidden_in(around: &[Around]) -> usize
    requires few { loops around.now ≤ deepest }
    ensures { result ≡ steps around.now }
{
    let mut hidden = 0;
    for part in around {
        hidden += hidden_of(part);
    }
    hidden
}

/// The rows of loops and conditions one inside another, the outermost first, over so many levels
/// and variables in all.
pub(crate) fn rows_of(
    alloc: Global,
    around: &[Around],
    levels: usize,
    all: usize,
) -> Result<List<Aff>, AllocError>
    requires fit { LevelsFit [] around.now }
    requires few { loops around.now ≤ deepest }
    requires levels { levels ≡ loops around.now }
    requires all { all ≡ loops around.now + steps around.now }
    ensures { IfOk result (λ rows. rows ≡ rows_of all levels around.now) }
{
    let mut rows = List::new(alloc);
    let mut at = levels;
    for part in around {
        push_rows(alloc, &mut rows, all, at, part)?;
        at += hidden_of(part);
    }
    Ok(rows)
}

/// The boxes of the loops.
fn level_boxes(alloc: Global, around: &[Around]) -> Result<List<Range>, AllocError>
    requires fit { LevelsFit [] around.now }
    requires few { loops around.now ≤ deepest }
    ensures { IfOk result (λ boxes. boxes ≡ boxes_from [] around.now) }
{
    let mut boxes = List::new(alloc);
    for part in around {
        match part {
            Around::Inside(level) => match small_box(
                boxes.as_slice(),
                level.lows.as_slice(),
                level.highs.as_slice(),
            ) {
                Some(inner) => boxes.push(inner)?,
                // The boxes of a well formed nest are small.
                None => unreachable!(),
            },
            Around::Where(_) => {}
        }
    }
    Ok(boxes)
}

/// How often a step above 1 may be added within a box.
fn hidden_range(around: Range, step: u32) -> Range
    requires small { IsSmall around }
    requires some { around.low ≤ℤ around.high }
    requires rises { 1 ≤ step }
    ensures { result ≡ hidden_range around step }
{
    Range {
        low: 0,
        high: ((around.high - around.low) as u64 / u64::from(step)) as i64,
    }
}

/// The boxes, and then those of the hidden values of the loops that have them.
#[tactic(auto, using(crate::proofs::Builds::hidden_begins, crate::proofs::Builds::hidden_plain, crate::proofs::Builds::hidden_more, crate::proofs::Builds::hidden_pass, crate::proofs::Builds::hidden_end, crate::proofs::Builds::hidden_there))]
fn with_hidden(alloc: Global, around: &[Around], boxes: &[Range]) -> Result<List<Range>, AllocError>
    requires fit { LevelsFit [] around.now }
    requires boxes { boxes.now ≡ boxes_from [] around.now }
    ensures { IfOk result (λ all.
        all ≡ boxes_from [] around.now ++ hidden_boxes (boxes_from [] around.now) around.now) }
{
    let mut all = List::from_slice(alloc, boxes)?;
    let mut next = 0;
    for part in around {
        match part {
            Around::Inside(level) => {
                if level.step != 1 {
                    all.push(hidden_range(boxes[next], level.step))?;
                }
                next += 1;
            }
            Around::Where(_) => {}
        }
    }
    Ok(all)
}

/// The boxes of the loops, and then those of the hidden values.
pub(crate) fn boxes_of(alloc: Global, around: &[Around]) -> Result<List<Range>, AllocError>
    requires fit { LevelsFit [] around.now }
    requires few { loops around.now ≤ deepest }
    ensures { IfOk result (λ boxes.
        boxes ≡ boxes_from [] around.now ++ hidden_boxes (boxes_from [] around.now) around.now) }
{
    let boxes = level_boxes(alloc, around)?;
    with_hidden(alloc, around, boxes.as_slice())
}

/// The form of one variable.
fn unit(alloc: Global, before: usize, after: usize) -> Result<Aff, AllocError>
    requires { before + after + 1 ≤ deepest }
    ensures { IfOk result (λ form. form ≡ unit before after) }
{
    let mut coefs = List::with_capacity(alloc, before + after + 1)?;
    push_zeros(&mut coefs, before)?;
    coefs.push(1)?;
    push_zeros(&mut coefs, after)?;
    Ok(Aff { coefs, constant: 0 })
}

/// The forms of so many variables.
pub(crate) fn units(alloc: Global, variables: usize) -> Result<List<Aff>, AllocError>
    requires { variables ≤ deepest }
    ensures { IfOk result (λ forms. forms ≡ units 0 variables) }
{
    let mut forms = List::with_capacity(alloc, variables)?;
    for k in 0..variables {
        forms.push(unit(alloc, k, variables - 1 - k)?)?;
    }
    Ok(forms)
}
