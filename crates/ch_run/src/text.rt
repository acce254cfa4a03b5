ghost use Rattle.std.specs.Prelude.{◌≡◌, ◌≤◌, ◌++◌, ◌^◌, length, take, drop, IsTrue, OnOk};
ghost use Rattle.std.specs.List.{flat_map};
ghost use Rattle.ch_nest.specs.Shape.{arrays_fit};
ghost use Rattle.ch_run.specs.EvalText.{array_line, array_lines, cells_text, element_text, extent_text};

use crate::sums::sum_of;
use ch_affine::Text;
use ch_nest::{ArrayDecl, cells_in};
use ch_print::{put_integer, put_number};
use std::alloc::AllocError;

fn put_extent(out: &mut Text, extent: u32) -> Result<(), AllocError>
    ensures { OnOk result (out.new ≡ out.old ++ extent_text extent) }
{
    out.append(b"[")?;
    put_number(out, u64::from(extent))?;
    out.append(b"]")
}

fn put_extents(out: &mut Text, extents: &[u32]) -> Result<(), AllocError>
    ensures { OnOk result (out.new ≡ out.old ++ flat_map extent_text extents.now) }
{
    for e in extents {
        put_extent(out, *e)?;
    }
    Ok(())
}

fn put_element(out: &mut Text, element: i64) -> Result<(), AllocError>
    ensures { OnOk result (out.new ≡ out.old ++ element_text element) }
{
    out.append(b" ")?;
    put_integer(out, element)
}

fn put_elements(out: &mut Text, cells: &[i64]) -> Result<(), AllocError>
    ensures { OnOk result (out.new ≡ out.old ++ flat_map element_text cells.now) }
{
    for z in cells {
        put_element(out, *z)?;
    }
    Ok(())
}

/// Adds an array's elements, or their sum alone.
fn put_cells(out: &mut Text, sums: bool, cells: &[i64]) -> Result<(), AllocError>
    requires { length cells.now ≤ 2 ^ 40 }
    ensures { OnOk result (out.new ≡ out.old ++ cells_text sums cells.now) }
{
    if sums {
        out.append(b" sum ")?;
        put_integer(out, sum_of(cells))
    } else {
        out.append(b":")?;
        put_elements(out, cells)
    }
}

/// Adds an array's name, its extents, and its elements or their sum, in a line.
#[tactic(auto, unfolding(crate::specs::EvalText::array_line))]
fn put_array(out: &mut Text, sums: bool, array: &ArrayDecl, cells: &[i64]) -> Result<(), AllocError>
    requires { length cells.now ≤ 2 ^ 40 }
    ensures { OnOk result (out.new ≡ out.old ++ array_line sums array.now cells.now) }
{
    out.append(array.name.as_bytes())?;
    put_extents(out, array.extents.as_slice())?;
    put_cells(out, sums, cells)?;
    out.append(b"\n")
}

/// The first elements, and those after them.
fn parted(cells: &[i64], count: usize) -> (&[i64], &[i64])
    ensures first { result.0.now ≡ take count cells.now }
    ensures others { result.1.now ≡ drop count cells.now }
{
    cells.split_at(count.min(cells.len()))
}

/// Adds a line for each array, whose cells stand one after the other.
#[tactic(auto, using(crate::proofs::Lines::lines_more))]
pub(crate) fn put_arrays(
    out: &mut Text,
    sums: bool,
    arrays: &[ArrayDecl],
    cells: &[i64],
) -> Result<(), AllocError>
    requires { IsTrue (arrays_fit arrays.now) }
    ensures { OnOk result (out.new ≡ out.old ++ array_lines sums arrays.now cells.now) }
{
    let mut rest = cells;
    for array in arrays {
        let (own, others) = parted(rest, cells_in(array.extents.as_slice()));
        put_array(out, sums, array, own)?;
        rest = others;
    }
    Ok(())
}
