//! The cell on which two elements conflict.

ghost use Rattle.std.specs.Prelude.{◌≡◌, ◌^◌, ◌++◌, [], ◌&&◌, ◌||◌, length, map, IfOk, OnOk};
ghost use Rattle.std.specs.List.{All};
ghost use Rattle.ch_affine.specs.Affine.{IsAtMost};
ghost use Rattle.ch_depends.specs.Sought.{IsNameable, IsReadable};
ghost use Rattle.ch_nest.specs.Run.{sub_value};
ghost use Rattle.ch_space.specs.Keeps.{IsReached, accesses};
ghost use Rattle.ch_timed.specs.Conflict.{cell_of, cells_of, clash, conflict};
ghost use Rattle.ch_timed.specs.Conflict.{has_cell, reads, same_cell, writes_cell};
ghost use Rattle.ch_timed.specs.Timed.{step};

use ch_affine::List;
use ch_nest::{Access, Body, Expr, Sub};
use ch_timed::{Cell, Element};
use std::alloc::{AllocError, Global};

/// Adds the reads of a right side, from left to right.
fn push_reads<'a>(expr: &'a Expr, found: &mut List<&'a Access>) -> Result<(), AllocError>
    ensures { OnOk result (
        map (λ a. a.now) found.new ≡ map (λ a. a.now) found.old ++ reads expr.now) }
{
    match expr {
        Expr::Number(_) | Expr::Iter(_) => Ok(()),
        Expr::Read(access) => found.push(access),
        Expr::Neg(inner) => push_reads(inner.get(), found),
        Expr::Add(left, right) | Expr::Sub(left, right) | Expr::Mul(left, right) => {
            push_reads(left.get(), found)?;
            push_reads(right.get(), found)
        }
    }
}

/// The reads of a right side, from left to right.
pub(crate) fn reads<'a>(alloc: Global, expr: &'a Expr) -> Result<List<&'a Access>, AllocError>
    ensures { IfOk result (λ found. map (λ a. a.now) found ≡ reads expr.now) }
{
    let mut found = List::new(alloc);
    push_reads(expr, &mut found)?;
    Ok(found)
}

/// The accesses of a body: the reads, then the write.
fn accesses<'a>(alloc: Global, body: &'a Body) -> Result<List<&'a Access>, AllocError>
    ensures { IfOk result (λ found. map (λ a. a.now) found ≡ accesses body.now) }
{
    let mut found = reads(alloc, &body.right)?;
    found.push(&body.write)?;
    Ok(found)
}

/// The value of a subscript.
fn subscript(sub: &Sub, iters: &[i64]) -> i64
    requires near { All (IsAtMost (2 ^ 54)) iters.now }
    requires form { length sub.now.form.coefs ≡ length iters.now }
    requires reached { IsReached iters.now sub.now }
    ensures { result ≡ sub_value iters.now sub.now }
{
    let value = sub.form.value(iters) as i64;
    if sub.modulus == 0 {
        return value;
    }
    value.rem_euclid(i64::from(sub.modulus))
}

/// The cell of an access.
fn cell_at(alloc: Global, access: &Access, iters: &[i64]) -> Result<Cell, AllocError>
    requires near { All (IsAtMost (2 ^ 54)) iters.now }
    requires readable { IsReadable iters.now access.now }
    ensures { IfOk result (λ cell. cell ≡ cell_of iters.now access.now) }
{
    let mut subs = List::with_capacity(alloc, access.subs.len())?;
    for sub in access.subs.as_slice() {
        subs.push(subscript(sub, iters))?;
    }
    Ok(Cell {
        array: access.array,
        subs,
    })
}

/// The cells of an element: those that are read, then the one that is written.
fn cells_of(alloc: Global, element: &Element) -> Result<List<Cell>, AllocError>
    requires { IsNameable element.now }
    ensures { IfOk result (λ cells. cells ≡ cells_of (step element.now)) }
{
    let found = accesses(alloc, &element.body)?;
    let mut cells = List::with_capacity(alloc, found.len())?;
    for access in found.as_slice() {
        cells.push(cell_at(alloc, access, element.identity.iters.as_slice())?)?;
    }
    Ok(cells)
}

#[tactic(auto, using(ch_order::proofs::Equality::numbers_tested))]
fn same_cell(a: &Cell, b: &Cell) -> bool
    ensures { result ≡ same_cell a.now b.now }
{
    a.array == b.array && a.subs.as_slice() == b.subs.as_slice()
}

/// Whether it is one of the cells.
fn has_cell(cell: &Cell, cells: &[Cell]) -> bool
    ensures { result ≡ has_cell cell.now cells.now }
{
    match cells {
        [] => false,
        [first, others @ ..] => same_cell(cell, first) || has_cell(cell, others),
    }
}

/// Whether it is the last of the cells, the one that is written.
fn writes_cell(cell: &Cell, cells: &[Cell]) -> bool
    ensures { result ≡ writes_cell cell.now cells.now }
{
    match cells.last() {
        None => false,
        Some(written) => same_cell(cell, written),
    }
}

/// Whether a cell of the first element is one of the second's, and one of them writes it.
fn clashes(cell: &Cell, ours: &[Cell], theirs: &[Cell]) -> bool
    ensures { result ≡ (has_cell cell.now theirs.now
        && (writes_cell cell.now ours.now || writes_cell cell.now theirs.now)) }
{
    has_cell(cell, theirs) && (writes_cell(cell, ours) || writes_cell(cell, theirs))
}

fn copied_cell(alloc: Global, cell: &Cell) -> Result<Cell, AllocError>
    ensures { IfOk result (λ copy. copy ≡ cell.now) }
{
    let subs = List::from_slice(alloc, cell.subs.as_slice())?;
    Ok(Cell {
        array: cell.array,
        subs,
    })
}

/// The first of our cells that clashes with theirs.
fn first_clash(alloc: Global, ours: &[Cell], theirs: &[Cell]) -> Result<Option<Cell>, AllocError>
    ensures { IfOk result (λ cell. cell ≡ clash ours.now theirs.now ours.now) }
{
    for cell in ours {
        if clashes(cell, ours, theirs) {
            return Ok(Some(copied_cell(alloc, cell)?));
        }
    }
    Ok(None)
}

/// The first cell, in the order of the first element's accesses, on which two elements conflict.
/// None where they don't.
pub(crate) fn conflict(
    alloc: Global,
    first: &Element,
    second: &Element,
) -> Result<Option<Cell>, AllocError>
    requires first { IsNameable first.now }
    requires second { IsNameable second.now }
    ensures { IfOk result (λ cell. cell ≡ conflict (step first.now) (step second.now)) }
{
    let ours = cells_of(alloc, first)?;
    let theirs = cells_of(alloc, second)?;
    first_clash(alloc, ours.as_slice(), theirs.as_slice())
}
