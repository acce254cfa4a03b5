//! How far the cells stand apart that are used with one prefix: the extents of a buffer.

ghost use Rattle.std.specs.Prelude.{◌≡◌, ◌≤◌, ◌<◌, ◌+◌, ◌-◌, ◌^◌, ◌++◌, [], ◌∷◌, length, map, take, drop, IfOk, MatchOption, OnOk};
ghost use Rattle.std.specs.List.{All};
ghost use Rattle.ch_affine.specs.Affine.{IsAtMost};
ghost use Rattle.ch_affine.specs.Rows.{IsBox};
ghost use Rattle.ch_datacopy.specs.Cells.{kept_row};
ghost use Rattle.ch_datacopy.specs.Pairs.{IsFramed, IsWidest, all_shared, difference, pair_boxes, pair_rows, pair_system, second_row};
ghost use Rattle.ch_datacopy.specs.Widths.{AreWidths, HaveNone, IsRoomy, IsWidth, wider};
ghost use Rattle.ch_space.specs.Following.{shared};

use crate::cells::{Cells, push_ranges};
use crate::rows::kept_row;
use ch_affine::{Aff, List, Range, System};
use ch_moved::units::push_zeros;
use ch_poly::greatest_value;
use std::alloc::{AllocError, Global};

fn shared(first: Range, second: Range) -> Range
    ensures { result ≡ shared first second }
{
    Range {
        low: first.low.max(second.low),
        high: first.high.min(second.high),
    }
}

/// The numbers that both have of each two ranges, or None where some two have none.
fn all_shared(
    alloc: Global,
    firsts: &[Range],
    seconds: &[Range],
) -> Result<Option<List<Range>>, AllocError>
    requires same { length firsts.now ≡ length seconds.now }
    requires firsts { All IsBox firsts.now }
    requires seconds { All IsBox seconds.now }
    ensures { IfOk result (λ found. MatchOption found (HaveNone (all_shared firsts.now seconds.now))
        (λ ranges. (ranges ≡ all_shared firsts.now seconds.now) × All IsBox ranges)) }
{
    let mut ranges = List::with_capacity(alloc, firsts.len())?;
    for k in 0..firsts.len() {
        let range = shared(firsts[k], seconds[k]);
        if range.low > range.high {
            return Ok(None);
        }
        ranges.push(range)?;
    }
    Ok(Some(ranges))
}

/// The rows of both, over the prefix, the first cell, the second cell, and the hidden variables of
/// both.
fn pair_rows(
    alloc: Global,
    around: usize,
    cells: usize,
    first: &Cells,
    second: &Cells,
) -> Result<List<Aff>, AllocError>
    requires first { IsFramed around cells first.now }
    requires second { IsFramed around cells second.now }
    requires first_room { first.now.levels + first.now.hidden ≤ 1024 }
    requires second_room { second.now.levels + second.now.hidden ≤ 1024 }
    ensures { IfOk result (λ rows. rows ≡ pair_rows around cells first.now second.now) }
{
    let mut rows = List::new(alloc);
    push_firsts(
        alloc,
        &mut rows,
        around + cells,
        cells,
        second.hidden as usize,
        first,
    )?;
    push_seconds(
        alloc,
        &mut rows,
        around,
        cells,
        first.hidden as usize,
        second,
    )?;
    Ok(rows)
}

/// Adds the rows of the first cells.
fn push_firsts(
    alloc: Global,
    rows: &mut List<Aff>,
    levels: usize,
    cells: usize,
    hidden: usize,
    first: &Cells,
) -> Result<(), AllocError>
    requires long { All (λ f. length f.coefs ≡ first.now.levels + first.now.hidden)
        first.now.system.rows }
    requires levels { levels ≡ first.now.levels }
    requires room { (first.now.levels + first.now.hidden) + (cells + hidden) ≤ 4096 }
    ensures { OnOk result (rows.new
        ≡ rows.old ++ map (kept_row levels cells hidden) first.now.system.rows) }
{
    for row in first.system.rows.as_slice() {
        rows.push(kept_row(alloc, levels, cells, hidden, row)?)?;
    }
    Ok(())
}

/// Adds the rows of the second cells.
fn push_seconds(
    alloc: Global,
    rows: &mut List<Aff>,
    around: usize,
    cells: usize,
    hidden: usize,
    second: &Cells,
) -> Result<(), AllocError>
    requires long { All (λ f. length f.coefs ≡ second.now.levels + second.now.hidden)
        second.now.system.rows }
    requires levels { around + cells ≡ second.now.levels }
    requires room { (second.now.levels + second.now.hidden) + (cells + hidden) ≤ 4096 }
    ensures { OnOk result (rows.new
        ≡ rows.old ++ map (second_row around cells hidden) second.now.system.rows) }
{
    for row in second.system.rows.as_slice() {
        rows.push(second_row(alloc, around, cells, hidden, row)?)?;
    }
    Ok(())
}

/// A row over the variables of a pair, whose subscripts are those of the second cell.
fn second_row(
    alloc: Global,
    around: usize,
    cells: usize,
    hidden: usize,
    row: &Aff,
) -> Result<Aff, AllocError>
    requires levels { around + cells ≤ length row.now.coefs }
    requires room { length row.now.coefs + (cells + hidden) ≤ 4096 }
    ensures { IfOk result (λ new. new ≡ second_row around cells hidden row.now) }
{
    let wide = kept_row(alloc, around, cells, 0, row)?;
    kept_row(alloc, around + cells + cells, hidden, 0, &wide)
}

/// The ranges of those variables, or None where both have no prefix in common.
fn pair_boxes(
    alloc: Global,
    around: usize,
    cells: usize,
    first: &Cells,
    second: &Cells,
) -> Result<Option<List<Range>>, AllocError>
    requires first { IsFramed around cells first.now }
    requires second { IsFramed around cells second.now }
    ensures { IfOk result (λ found. MatchOption found
        (HaveNone (all_shared (take around first.now.system.boxes)
        (take around second.now.system.boxes)))
        (λ boxes. (boxes ≡ pair_boxes around cells first.now second.now) × All IsBox boxes)) }
{
    let firsts = first.system.boxes.as_slice();
    let seconds = second.system.boxes.as_slice();
    let Some(mut boxes) = all_shared(alloc, &firsts[..around], &seconds[..around])? else {
        return Ok(None);
    };
    push_ranges(&mut boxes, &firsts[around..around + cells])?;
    push_ranges(&mut boxes, &seconds[around..around + cells])?;
    push_ranges(&mut boxes, &firsts[around + cells..])?;
    push_ranges(&mut boxes, &seconds[around + cells..])?;
    Ok(Some(boxes))
}

/// How much greater subscript `k` of the first cell is than that of the second, over so many
/// variables.
fn difference(
    alloc: Global,
    around: usize,
    cells: usize,
    k: usize,
    hidden: usize,
) -> Result<Aff, AllocError>
    requires k { k < cells }
    requires room { around + cells + cells + hidden ≤ 4096 }
    ensures { IfOk result (λ form. form ≡ difference around k (cells - 1 - k) hidden) }
{
    let mut coefs = List::new(alloc);
    push_zeros(&mut coefs, around)?;
    push_zeros(&mut coefs, k)?;
    coefs.push(1)?;
    push_zeros(&mut coefs, cells - 1 - k)?;
    push_zeros(&mut coefs, k)?;
    coefs.push(-1)?;
    push_zeros(&mut coefs, cells - 1 - k)?;
    push_zeros(&mut coefs, hidden)?;
    Ok(Aff { coefs, constant: 0 })
}

/// The greatest difference of subscript `k` between two cells, one of each, with one prefix; None
/// where they have none in common.
fn widest(
    alloc: Global,
    around: usize,
    cells: usize,
    k: usize,
    first: &Cells,
    second: &Cells,
) -> Result<Option<i128>, AllocError>
    requires k { k < cells }
    requires first { IsFramed around cells first.now }
    requires second { IsFramed around cells second.now }
    requires first_room { first.now.levels + first.now.hidden ≤ 1024 }
    requires second_room { second.now.levels + second.now.hidden ≤ 1024 }
    ensures { IfOk result (λ greatest. IsWidest around cells k first.now second.now greatest) }
{
    let Some(boxes) = pair_boxes(alloc, around, cells, first, second)? else {
        return Ok(None);
    };
    let rows = pair_rows(alloc, around, cells, first, second)?;
    let hidden = first.hidden as usize + second.hidden as usize;
    let form = difference(alloc, around, cells, k, hidden)?;
    let system = System {
        vars: boxes.len() as u32,
        rows,
        boxes,
    };
    greatest_value(alloc, &system, &form)
}

/// The greater one of both, the second being at most a width.
fn wider(wide: u64, greatest: i128) -> u64
    requires wide { wide ≤ 2 ^ 19 }
    requires greatest { IsAtMost (2 ^ 19) greatest }
    ensures value { result ≡ wider wide greatest }
    ensures near { result ≤ 2 ^ 19 }
{
    if i128::from(wide) < greatest {
        greatest as u64
    } else {
        wide
    }
}

/// The greatest difference of subscript `k` between a cell of the first and one of the others with
/// one prefix, or 0.
fn width_with(
    alloc: Global,
    around: usize,
    cells: usize,
    k: usize,
    first: &Cells,
    others: &[Cells],
) -> Result<u64, AllocError>
    requires k { k < cells }
    requires first { IsRoomy around cells first.now }
    requires others { All (IsRoomy around cells) others.now }
    ensures width { IfOk result (λ wide. IsWidth around cells k (first.now ∷ []) others.now wide) }
    ensures near { IfOk result (λ wide. wide ≤ 2 ^ 19) }
{
    let mut wide = 0;
    for other in others {
        if let Some(greatest) = widest(alloc, around, cells, k, first, other)? {
            wide = wider(wide, greatest);
        }
    }
    Ok(wide)
}

/// The greatest difference of subscript `k` between two cells with one prefix, or 0.
fn width(
    alloc: Global,
    around: usize,
    cells: usize,
    k: usize,
    all: &[Cells],
) -> Result<u64, AllocError>
    requires k { k < cells }
    requires all { All (IsRoomy around cells) all.now }
    ensures width { IfOk result (λ wide. IsWidth around cells k all.now all.now wide) }
    ensures near { IfOk result (λ wide. wide ≤ 2 ^ 19) }
{
    let mut wide = 0;
    for first in all {
        let other = width_with(alloc, around, cells, k, first, all)?;
        if wide < other {
            wide = other;
        }
    }
    Ok(wide)
}

/// For each subscript one more than its greatest difference between two cells with one prefix.
pub(crate) fn extents(
    alloc: Global,
    around: usize,
    cells: usize,
    all: &[Cells],
) -> Result<List<u32>, AllocError>
    requires all { All (IsRoomy around cells) all.now }
    requires few { cells ≤ 4 }
    ensures widths { IfOk result (AreWidths around cells all.now) }
    ensures small { IfOk result (All (λ e. e ≤ 2 ^ 20)) }
{
    let mut extents = List::with_capacity(alloc, cells)?;
    for k in 0..cells {
        let wide = width(alloc, around, cells, k, all)?;
        extents.push(wide as u32 + 1)?;
    }
    Ok(extents)
}
