ghost use Rattle.std.specs.Prelude.{◌≡◌, ◌<◌, ◌++◌, length, OnOk, IsTrue, codes};
ghost use Rattle.std.specs.List.{flat_map, list_all};
ghost use Rattle.std.specs.Char.{is_ascii};
ghost use Rattle.ch_print.specs.Lists.{behind, separated};
ghost use Rattle.ch_code.specs.LoopText.{bound_text, divided_text, end_text, for_text, high_text, if_text, low_text, many_text, more_ranges_text, range_text, ranges_text, row_text, some_text, variables_text};
ghost use Rattle.ch_code.specs.FormText.{form_text, looped};

use crate::code::Bound;
use crate::forms::{LOOPED, put_form, put_variable};
use ch_affine::{Aff, Range, System, Text};
use ch_print::{put_integer, put_number};
use std::alloc::AllocError;

/// Adds a bound inside this many loops, rounded by the function of this name.
#[tactic(auto, unfolding(crate::specs::LoopText::bound_text), using(crate::proofs::Steps::divided_one, crate::proofs::Steps::divided_other))]
fn put_bound(
    out: &mut Text,
    rounding: &[u8],
    around: usize,
    bound: &Bound,
) -> Result<(), AllocError>
    requires { IsTrue (list_all is_ascii rounding.now) }
    ensures { OnOk result (out.new ≡ out.old ++ bound_text rounding.now around bound.now) }
{
    if bound.divisor == 1 {
        return put_form(out, LOOPED, around, &bound.form);
    }
    out.append(rounding)?;
    out.append(b"((")?;
    put_form(out, LOOPED, around, &bound.form)?;
    out.append(b") / ")?;
    put_number(out, u64::from(bound.divisor))?;
    out.append(b")")
}

fn put_more_bounds(
    out: &mut Text,
    rounding: &[u8],
    around: usize,
    bounds: &[Bound],
) -> Result<(), AllocError>
    requires { IsTrue (list_all is_ascii rounding.now) }
    ensures { OnOk result
        (out.new
        ≡ out.old ++ flat_map (behind (codes ", ") (bound_text rounding.now around)) bounds.now) }
{
    for bound in bounds {
        out.append(b", ")?;
        put_bound(out, rounding, around, bound)?;
    }
    Ok(())
}

fn put_bounds(
    out: &mut Text,
    rounding: &[u8],
    around: usize,
    bounds: &[Bound],
) -> Result<(), AllocError>
    requires { IsTrue (list_all is_ascii rounding.now) }
    ensures { OnOk result
        (out.new ≡ out.old ++ separated (codes ", ") (bound_text rounding.now around) bounds.now) }
{
    let Some((first, rest)) = bounds.split_first() else {
        return Ok(());
    };
    put_bound(out, rounding, around, first)?;
    put_more_bounds(out, rounding, around, rest)
}

fn put_many(
    out: &mut Text,
    chosen: &[u8],
    rounding: &[u8],
    around: usize,
    bounds: &[Bound],
) -> Result<(), AllocError>
    requires chosen { IsTrue (list_all is_ascii chosen.now) }
    requires rounding { IsTrue (list_all is_ascii rounding.now) }
    ensures { OnOk result
        (out.new ≡ out.old ++ many_text chosen.now rounding.now around bounds.now) }
{
    out.append(chosen)?;
    out.append(b"(")?;
    put_bounds(out, rounding, around, bounds)?;
    out.append(b")")
}

/// Adds where a loop begins or ends: `chosen` names the choice among bounds, `rounding` the
/// rounding of each.
fn put_end(
    out: &mut Text,
    chosen: &[u8],
    rounding: &[u8],
    around: usize,
    bounds: &[Bound],
) -> Result<(), AllocError>
    requires chosen { IsTrue (list_all is_ascii chosen.now) }
    requires rounding { IsTrue (list_all is_ascii rounding.now) }
    ensures { OnOk result
        (out.new ≡ out.old ++ end_text chosen.now rounding.now around bounds.now) }
{
    match bounds {
        [bound] => put_bound(out, rounding, around, bound),
        _ => put_many(out, chosen, rounding, around, bounds),
    }
}

#[tactic(auto, unfolding(crate::specs::LoopText::low_text))]
fn put_low(out: &mut Text, around: usize, lows: &[Bound]) -> Result<(), AllocError>
    ensures { OnOk result (out.new ≡ out.old ++ low_text around lows.now) }
{
    put_end(out, b"max", b"ceil", around, lows)
}

#[tactic(auto, unfolding(crate::specs::LoopText::high_text))]
fn put_high(out: &mut Text, around: usize, highs: &[Bound]) -> Result<(), AllocError>
    ensures { OnOk result (out.new ≡ out.old ++ high_text around highs.now) }
{
    put_end(out, b"min", b"floor", around, highs)
}

/// Adds a loop's head inside this many loops.
#[tactic(auto, unfolding(crate::specs::LoopText::for_text))]
pub(crate) fn put_for(
    out: &mut Text,
    around: usize,
    level: u32,
    lows: &[Bound],
    highs: &[Bound],
) -> Result<(), AllocError>
    ensures { OnOk result (out.new ≡ out.old ++ for_text around level lows.now highs.now) }
{
    out.append(b"for ")?;
    put_variable(out, LOOPED, u64::from(level))?;
    out.append(b" = ")?;
    put_low(out, around, lows)?;
    out.append(b" to ")?;
    put_high(out, around, highs)
}

fn put_some(out: &mut Text, around: usize, number: usize) -> Result<(), AllocError>
    ensures { OnOk result (out.new ≡ out.old ++ some_text around number) }
{
    if number <= around {
        return Ok(());
    }
    out.append(b"some ")?;
    put_variable(out, LOOPED, number as u64)?;
    out.append(b": ")
}

#[tactic(auto, unfolding(crate::specs::LoopText::range_text))]
fn put_range(out: &mut Text, around: usize, number: usize, range: Range) -> Result<(), AllocError>
    ensures { OnOk result (out.new ≡ out.old ++ range_text around number range) }
{
    put_some(out, around, number)?;
    put_integer(out, range.low)?;
    out.append(b" <= ")?;
    put_variable(out, LOOPED, number as u64)?;
    out.append(b" <= ")?;
    put_integer(out, range.high)
}

#[tactic(auto, using(crate::proofs::Steps::ranges_more))]
fn put_ranges(out: &mut Text, around: usize, ranges: &[Range]) -> Result<(), AllocError>
    ensures { OnOk result (out.new ≡ out.old ++ ranges_text around ranges.now) }
{
    let Some((first, rest)) = ranges.split_first() else {
        return out.append(b"true");
    };
    put_range(out, around, 1, *first)?;
    for (k, range) in rest.iter().enumerate() {
        out.append(b", ")?;
        put_range(out, around, k + 2, *range)?;
    }
    Ok(())
}

fn put_variables(out: &mut Text, ranges: usize, variables: u32) -> Result<(), AllocError>
    ensures { OnOk result (out.new ≡ out.old ++ variables_text ranges variables) }
{
    if variables as usize == ranges {
        return Ok(());
    }
    out.append(b" of ")?;
    put_number(out, u64::from(variables))
}

fn put_rows(out: &mut Text, variables: usize, rows: &[Aff]) -> Result<(), AllocError>
    ensures { OnOk result (out.new ≡ out.old ++ flat_map (row_text variables) rows.now) }
{
    for row in rows {
        out.append(b" and ")?;
        put_form(out, LOOPED, variables, row)?;
        out.append(b" >= 0")?;
    }
    Ok(())
}

/// Adds a guard's head inside this many loops.
#[tactic(auto, unfolding(crate::specs::LoopText::if_text))]
pub(crate) fn put_if(out: &mut Text, around: usize, system: &System) -> Result<(), AllocError>
    ensures { OnOk result (out.new ≡ out.old ++ if_text around system.now) }
{
    out.append(b"if ")?;
    put_ranges(out, around, system.boxes.as_slice())?;
    put_variables(out, system.boxes.len(), system.vars)?;
    put_rows(out, system.vars as usize, system.rows.as_slice())
}
