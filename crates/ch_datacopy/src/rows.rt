//! The rows of the system of the cells that an access uses.

ghost use Rattle.std.specs.Prelude.{◌≡◌, ◌+◌, ◌≤◌, ◌<◌, ◌++◌, ◌∷◌, [], ◌-◌, length, map, IfOk, OnOk};
ghost use Rattle.std.specs.List.{All};
ghost use Rattle.ch_affine.specs.Negatives.{negative};
ghost use Rattle.ch_datacopy.specs.Cells.{cell_row, cell_ties, iterator_row, iterator_ties, kept_row, spliced};

use ch_affine::{Aff, List};
use ch_moved::units::push_zeros;
use std::alloc::{AllocError, Global};

/// How many variables of each kind a system has, in this order: the values of the loops around, the
/// subscripts of a cell, the inner variables, and the iterators.
#[derive(Clone, Copy, Debug)]
pub(crate) struct Frame {
    pub(crate) around: usize,
    pub(crate) cells: usize,
    pub(crate) inner: usize,
    pub(crate) iters: usize,
}

fn push_all(numbers: &mut List<i64>, more: &[i64]) -> Result<(), AllocError>
    ensures { OnOk result (numbers.new ≡ numbers.old ++ more.now) }
{
    for number in more {
        numbers.push(*number)?;
    }
    Ok(())
}

/// Adds the numbers with so many zeros behind the first ones.
fn push_spliced(
    numbers: &mut List<i64>,
    first: usize,
    zeros: usize,
    more: &[i64],
) -> Result<(), AllocError>
    requires { first ≤ length more.now }
    ensures { OnOk result (numbers.new ≡ numbers.old ++ spliced first zeros more.now) }
{
    push_all(numbers, &more[..first])?;
    push_zeros(numbers, zeros)?;
    push_all(numbers, &more[first..])
}

/// A row with so many zeros behind its first coefficients, and so many at its end.
pub(crate) fn kept_row(
    alloc: Global,
    first: usize,
    between: usize,
    behind: usize,
    row: &Aff,
) -> Result<Aff, AllocError>
    requires first { first ≤ length row.now.coefs }
    requires room { length row.now.coefs + (between + behind) ≤ 4096 }
    ensures { IfOk result (λ new. new ≡ kept_row first between behind row.now) }
{
    let mut coefs = List::new(alloc);
    push_spliced(&mut coefs, first, between, row.coefs.as_slice())?;
    push_zeros(&mut coefs, behind)?;
    Ok(Aff {
        coefs,
        constant: row.constant,
    })
}

/// Adds the row and its negative: so the row's value is 0.
fn push_zero(alloc: Global, rows: &mut List<Aff>, row: Aff) -> Result<(), AllocError>
    ensures { OnOk result (rows.new ≡ rows.old ++ row ∷ negative row ∷ []) }
{
    let negative = row.negative(alloc)?;
    rows.push(row)?;
    rows.push(negative)
}

/// How much the form's value over the levels is above iterator `k`.
fn iterator_row(alloc: Global, frame: Frame, k: usize, form: &Aff) -> Result<Aff, AllocError>
    requires around { frame.around ≤ length form.now.coefs }
    requires inner { length form.now.coefs ≤ frame.around + frame.inner }
    requires k { k < frame.iters }
    requires room { (frame.around + frame.cells) + (frame.inner + frame.iters) ≤ 4096 }
    ensures { IfOk result (λ row. row ≡ iterator_row frame.around frame.cells
        ((frame.around + frame.inner) - length form.now.coefs) k (frame.iters - 1 - k) form.now) }
{
    let levels = form.coefs.len();
    let mut coefs = List::new(alloc);
    push_spliced(&mut coefs, frame.around, frame.cells, form.coefs.as_slice())?;
    push_zeros(&mut coefs, frame.around + frame.inner - levels)?;
    push_zeros(&mut coefs, k)?;
    coefs.push(-1)?;
    push_zeros(&mut coefs, frame.iters - 1 - k)?;
    Ok(Aff {
        coefs,
        constant: form.constant,
    })
}

/// How much the form's value over the iterators is above subscript `k`.
fn cell_row(alloc: Global, frame: Frame, k: usize, form: &Aff) -> Result<Aff, AllocError>
    requires iters { length form.now.coefs ≡ frame.iters }
    requires k { k < frame.cells }
    requires room { (frame.around + frame.cells) + (frame.inner + frame.iters) ≤ 4096 }
    ensures { IfOk result (λ row.
        row ≡ cell_row frame.around frame.inner k (frame.cells - 1 - k) form.now) }
{
    let mut coefs = List::new(alloc);
    push_zeros(&mut coefs, frame.around)?;
    push_zeros(&mut coefs, k)?;
    coefs.push(-1)?;
    push_zeros(&mut coefs, frame.cells - 1 - k)?;
    push_zeros(&mut coefs, frame.inner)?;
    push_all(&mut coefs, form.coefs.as_slice())?;
    Ok(Aff {
        coefs,
        constant: form.constant,
    })
}

/// Adds the rows of the piece.
pub(crate) fn push_kept(
    alloc: Global,
    rows: &mut List<Aff>,
    frame: Frame,
    old: &[Aff],
) -> Result<(), AllocError>
    requires long { All (λ f. length f.coefs ≡ frame.around + frame.inner) old.now }
    requires room { (frame.around + frame.cells) + (frame.inner + frame.iters) ≤ 4096 }
    ensures { OnOk result (rows.new
        ≡ rows.old ++ map (kept_row frame.around frame.cells frame.iters) old.now) }
{
    for row in old {
        rows.push(kept_row(alloc, frame.around, frame.cells, frame.iters, row)?)?;
    }
    Ok(())
}

/// Adds the rows by which each iterator is the value of its form over the levels.
pub(crate) fn push_iterators(
    alloc: Global,
    rows: &mut List<Aff>,
    frame: Frame,
    levels: usize,
    origin: &[Aff],
) -> Result<(), AllocError>
    requires long { All (λ f. length f.coefs ≡ levels) origin.now }
    requires around { frame.around ≤ levels }
    requires inner { levels ≤ frame.around + frame.inner }
    requires iters { length origin.now ≡ frame.iters }
    requires room { (frame.around + frame.cells) + (frame.inner + frame.iters) ≤ 4096 }
    ensures { OnOk result (rows.new ≡ rows.old
        ++ iterator_ties frame.around frame.cells ((frame.around + frame.inner) - levels) 0
        origin.now) }
{
    for k in 0..origin.len() {
        let row = iterator_row(alloc, frame, k, &origin[k])?;
        push_zero(alloc, rows, row)?;
    }
    Ok(())
}

/// Adds the rows by which each subscript is the value of its form over the iterators.
pub(crate) fn push_cells(
    alloc: Global,
    rows: &mut List<Aff>,
    frame: Frame,
    forms: &[Aff],
) -> Result<(), AllocError>
    requires long { All (λ f. length f.coefs ≡ frame.iters) forms.now }
    requires cells { length forms.now ≡ frame.cells }
    requires room { (frame.around + frame.cells) + (frame.inner + frame.iters) ≤ 4096 }
    ensures { OnOk result (rows.new ≡ rows.old ++ cell_ties frame.around frame.inner 0 forms.now) }
{
    for k in 0..forms.len() {
        let row = cell_row(alloc, frame, k, &forms[k])?;
        push_zero(alloc, rows, row)?;
    }
    Ok(())
}
