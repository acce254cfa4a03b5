//! The rows, ranges, forms and places of a tiled piece. Levels are counted from 0.

ghost use Rattle.std.specs.Prelude.{◌≡◌, ◌<◌, ◌≤◌, ◌++◌, length, IfOk, OnOk};
ghost use Rattle.std.specs.List.{All};
ghost use Rattle.ch_affine.specs.Affine.{IsAtMost};
ghost use Rattle.ch_affine.specs.Rows.{IsBox};
ghost use Rattle.ch_affine.specs.declared.system.Range.{Range};
ghost use Rattle.ch_tile.specs.Layout.{tile_rows, tiled_boxes, tiles_of, two_levels, untiled};
ghost use Rattle.ch_tile.specs.Tiled.{inserted};

use ch_affine::{Aff, List, Range};
use ch_moved::units::{push_zeros, unit};
use std::alloc::{AllocError, Global};

/// The forms that give the levels of a piece from those with one more, which stands at `outer`.
pub(crate) fn untiled(alloc: Global, levels: usize, outer: usize) -> Result<List<Aff>, AllocError>
    requires few { levels ≤ 10 }
    requires outer { outer < levels }
    ensures { IfOk result (λ forms. forms ≡ untiled levels outer) }
{
    let mut forms = List::with_capacity(alloc, levels)?;
    for around in 0..outer {
        forms.push(unit(alloc, around, levels - around)?)?;
    }
    for within in outer..levels {
        forms.push(unit(alloc, within + 1, levels - 1 - within)?)?;
    }
    Ok(forms)
}

/// The tiles of a range of values.
fn tiles_of(size: u32, range: Range) -> Range
    requires some { 1 ≤ size }
    requires range { IsBox range }
    ensures value { result ≡ tiles_of size range }
    ensures range { IsBox result }
{
    let size = i64::from(size);
    Range {
        low: range.low.div_euclid(size),
        high: range.high.div_euclid(size),
    }
}

/// The form with one coefficient for the new level and one for the tiled one.
fn two_levels(
    alloc: Global,
    levels: usize,
    outer: usize,
    level: usize,
    new: i64,
    tiled: i64,
    constant: i64,
) -> Result<Aff, AllocError>
    requires few { levels ≤ 10 }
    requires outer { outer ≤ level }
    requires level { level < levels }
    requires new { IsAtMost 4096 new }
    requires tiled { IsAtMost 4096 tiled }
    requires constant { IsAtMost 4096 constant }
    ensures { IfOk result (λ form. form ≡ two_levels levels outer level new tiled constant) }
{
    let mut coefs = List::with_capacity(alloc, levels + 1)?;
    push_zeros(&mut coefs, outer)?;
    coefs.push(new)?;
    push_zeros(&mut coefs, level - outer)?;
    coefs.push(tiled)?;
    push_zeros(&mut coefs, levels - 1 - level)?;
    Ok(Aff { coefs, constant })
}

/// The rows that say of which tile a value is.
pub(crate) fn tile_rows(
    alloc: Global,
    levels: usize,
    outer: usize,
    level: usize,
    size: u32,
) -> Result<List<Aff>, AllocError>
    requires few { levels ≤ 10 }
    requires outer { outer ≤ level }
    requires level { level < levels }
    requires some { 1 ≤ size }
    requires small { size ≤ 4096 }
    ensures { IfOk result (λ rows. rows ≡ tile_rows levels outer level size) }
{
    let size = i64::from(size);
    let mut rows = List::with_capacity(alloc, 2)?;
    rows.push(two_levels(alloc, levels, outer, level, -size, 1, 0)?)?;
    rows.push(two_levels(alloc, levels, outer, level, size, -1, size - 1)?)?;
    Ok(rows)
}

/// The ranges, that of the tiles put before those from `outer` on.
pub(crate) fn tiled_boxes(
    alloc: Global,
    boxes: &[Range],
    outer: usize,
    level: usize,
    size: u32,
) -> Result<List<Range>, AllocError>
    requires ranges { All IsBox boxes.now }
    requires outer { outer ≤ level }
    requires level { level < length boxes.now }
    requires some { 1 ≤ size }
    requires small { size ≤ 4096 }
    ensures value { IfOk result (λ new. (d : Range) → new
        ≡ tiled_boxes outer level size boxes.now d) }
    ensures ranges { IfOk result (All IsBox) }
{
    let (before, behind) = boxes.split_at(outer);
    let mut new = List::with_capacity(alloc, boxes.len() + 1)?;
    push_ranges(&mut new, before)?;
    new.push(tiles_of(size, boxes[level]))?;
    push_ranges(&mut new, behind)?;
    Ok(new)
}

fn push_ranges(ranges: &mut List<Range>, more: &[Range]) -> Result<(), AllocError>
    ensures { OnOk result (ranges.new ≡ ranges.old ++ more.now) }
{
    for range in more {
        ranges.push(*range)?;
    }
    Ok(())
}

/// The places with a 0 behind those up to `outer`.
pub(crate) fn tiled_places(
    alloc: Global,
    places: &[u32],
    outer: usize,
) -> Result<List<u32>, AllocError>
    requires { outer ≤ length places.now }
    ensures { IfOk result (λ new. new ≡ inserted outer 0 places.now) }
{
    let (before, behind) = places.split_at(outer);
    let mut new = List::with_capacity(alloc, places.len() + 1)?;
    push_places(&mut new, before)?;
    new.push(0)?;
    push_places(&mut new, behind)?;
    Ok(new)
}

fn push_places(places: &mut List<u32>, more: &[u32]) -> Result<(), AllocError>
    ensures { OnOk result (places.new ≡ places.old ++ more.now) }
{
    for place in more {
        places.push(*place)?;
    }
    Ok(())
}
