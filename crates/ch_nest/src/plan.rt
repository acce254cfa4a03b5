ghost use Rattle.std.specs.Prelude.{◌≡◌, ◌≤◌, ◌<◌, ◌^◌, ℤ, pos, [], length};
ghost use Rattle.std.specs.Prelude.{take, IsTrue, IfOk, OnOk, OnErr};
ghost use Rattle.std.specs.List.{list_all};
ghost use Rattle.ch_affine.specs.Affine.{value};
ghost use Rattle.ch_nest.specs.Arrays.{extents_of, total};
ghost use Rattle.ch_nest.specs.Fast.{AreFlat, FitBelow, FitsBelow, IsFlatExpr};
ghost use Rattle.ch_nest.specs.Fast.{IsFlatItem, IsFlatPlace, IsPlain, IsRowMajor};
ghost use Rattle.ch_nest.specs.Limits.{deepest};
ghost use Rattle.ch_nest.specs.Run.{run};
ghost use Rattle.ch_nest.specs.Shape.{access_fits, arrays_fit, parts_fit, sub_fits};
ghost use Rattle.ch_nest.specs.Sound.{items_inside};

use crate::flat::{FlatExpr, FlatItem, run_flats};
use crate::nest::{Access, ArrayDecl, Expr, Item, Nest, Sub};
use crate::place::total;
use crate::run::run_nest;
use ch_affine::{Aff, AffError, Boxed, LARGEST_COEFFICIENT, List, combine, copied_forms};
use std::alloc::{AllocError, Global};

/// A form of `depth` variables that has this value everywhere.
fn plain(alloc: Global, depth: usize, constant: usize) -> Result<Aff, AllocError>
    requires depth { depth ≤ deepest }
    requires constant { constant ≤ 2 ^ 40 }
    ensures { IfOk result (IsPlain depth constant) }
{
    let mut coefs = List::with_capacity(alloc, depth)?;
    for _k in 0..depth {
        coefs.push(0)?;
    }
    Ok(Aff {
        coefs,
        constant: constant as i64,
    })
}

/// The flat index within an array, where `at` is that of the subscripts before.
fn row_major_form(alloc: Global, at: Aff, extents: &[u32], subs: &[Sub]) -> Result<Aff, AffError>
    requires { IsTrue (list_all (sub_fits (length at.coefs)) subs.now) }
    ensures same { IfOk result (λ f. length f.coefs ≡ length at.coefs) }
    ensures value { IfOk result (IsRowMajor at extents.now subs.now) }
{
    match extents {
        [] => Ok(at),
        [extent, inner @ ..] => match subs {
            [] => Ok(at),
            [sub, others @ ..] => {
                let next = combine(
                    alloc,
                    i64::from(*extent),
                    &at,
                    1,
                    &sub.form,
                    LARGEST_COEFFICIENT,
                )?;
                row_major_form(alloc, next, inner, others)
            }
        },
    }
}

/// The flat index, among the cells of all arrays, of the cell that an access names.
fn place_form(
    alloc: Global,
    arrays: &[ArrayDecl],
    access: &Access,
    depth: usize,
) -> Result<Aff, AffError>
    requires arrays { IsTrue (arrays_fit arrays.now) }
    requires fits { IsTrue (access_fits arrays.now depth access.now) }
    requires depth { depth ≤ deepest }
    ensures { IfOk result (IsFlatPlace arrays.now depth access.now) }
{
    let k = access.array as usize;
    let base = plain(alloc, depth, total(&arrays[..k]))?;
    let start = plain(alloc, depth, 0)?;
    let extents = arrays[k].extents.as_slice();
    let within = row_major_form(alloc, start, extents, access.subs.as_slice())?;
    combine(alloc, 1, &base, 1, &within, LARGEST_COEFFICIENT)
}

#[cycle(right)]
fn boxed_form(
    alloc: Global,
    arrays: &[ArrayDecl],
    expr: &Expr,
    depth: usize,
) -> Result<Boxed<FlatExpr>, AffError>
    requires arrays { IsTrue (arrays_fit arrays.now) }
    requires fits { IsTrue (parts_fit arrays.now depth expr.now) }
    requires depth { depth ≤ deepest }
    ensures { IfOk result (IsFlatExpr arrays.now depth expr.now) }
{
    let flat = expr_form(alloc, arrays, expr, depth)?;
    let flat = Boxed::new(alloc, flat)?;
    Ok(flat)
}

#[cycle(right)]
fn expr_form(
    alloc: Global,
    arrays: &[ArrayDecl],
    expr: &Expr,
    depth: usize,
) -> Result<FlatExpr, AffError>
    requires arrays { IsTrue (arrays_fit arrays.now) }
    requires fits { IsTrue (parts_fit arrays.now depth expr.now) }
    requires depth { depth ≤ deepest }
    ensures { IfOk result (IsFlatExpr arrays.now depth expr.now) }
{
    match expr {
        Expr::Number(n) => Ok(FlatExpr::Number(*n)),
        Expr::Iter(k) => Ok(FlatExpr::Iter(*k)),
        Expr::Read(access) => {
            let form = place_form(alloc, arrays, access, depth)?;
            Ok(FlatExpr::Read(form))
        }
        Expr::Neg(x) => {
            let x = boxed_form(alloc, arrays, x.get(), depth)?;
            Ok(FlatExpr::Neg(x))
        }
        Expr::Add(x, y) => {
            let left = boxed_form(alloc, arrays, x.get(), depth)?;
            let right = boxed_form(alloc, arrays, y.get(), depth)?;
            Ok(FlatExpr::Add(left, right))
        }
        Expr::Sub(x, y) => {
            let left = boxed_form(alloc, arrays, x.get(), depth)?;
            let right = boxed_form(alloc, arrays, y.get(), depth)?;
            Ok(FlatExpr::Sub(left, right))
        }
        Expr::Mul(x, y) => {
            let left = boxed_form(alloc, arrays, x.get(), depth)?;
            let right = boxed_form(alloc, arrays, y.get(), depth)?;
            Ok(FlatExpr::Mul(left, right))
        }
    }
}

#[cycle(form)]
fn items_form(
    alloc: Global,
    arrays: &[ArrayDecl],
    items: &[Item],
    depth: usize,
) -> Result<List<FlatItem>, AffError>
    requires arrays { IsTrue (arrays_fit arrays.now) }
    requires depth { depth ≤ deepest }
    requires below { FitBelow arrays.now items.now depth }
    ensures { IfOk result (AreFlat arrays.now depth items.now) }
{
    let mut flat = List::with_capacity(alloc, items.len())?;
    for item in items {
        flat.push(item_form(alloc, arrays, item, depth)?)?;
    }
    Ok(flat)
}

#[cycle(form)]
fn item_form(
    alloc: Global,
    arrays: &[ArrayDecl],
    item: &Item,
    depth: usize,
) -> Result<FlatItem, AffError>
    requires arrays { IsTrue (arrays_fit arrays.now) }
    requires depth { depth ≤ deepest }
    requires below { FitsBelow arrays.now item.now depth }
    ensures { IfOk result (IsFlatItem arrays.now depth item.now) }
{
    match item {
        Item::Assign { body, .. } => {
            let write = place_form(alloc, arrays, &body.write, depth)?;
            let right = expr_form(alloc, arrays, &body.right, depth)?;
            Ok(FlatItem::Assign { write, right })
        }
        Item::Loop {
            lows,
            highs,
            step,
            items,
        } => {
            let lows = copied_forms(alloc, lows.as_slice())?;
            let highs = copied_forms(alloc, highs.as_slice())?;
            let items = items_form(alloc, arrays, items.as_slice(), depth + 1)?;
            Ok(FlatItem::Loop {
                level: depth as u32,
                lows,
                highs,
                step: *step,
                items,
            })
        }
        Item::If { row, items } => {
            let row = row.copied(alloc)?;
            let items = items_form(alloc, arrays, items.as_slice(), depth)?;
            Ok(FlatItem::If { row, items })
        }
    }
}

/// Runs a sound nest once in program order, as [`run_nest`] does, but finds the place of each
/// access once, before it starts. Memory is taken before the first cell is written.
pub fn perform(alloc: Global, nest: &Nest, cells: &mut List<i64>) -> Result<(), AllocError>
    requires size { length cells.old ≡ total (extents_of nest.now.arrays) }
    requires inside { IsTrue (items_inside (extents_of nest.now.arrays) nest.now.items []) }
    ensures ok { OnOk result (cells.new ≡ run nest.now cells.old) }
    ensures err { OnErr result (cells.new ≡ cells.old) }
{
    match items_form(alloc, nest.arrays.as_slice(), nest.items.as_slice(), 0) {
        Ok(flat) => run_flats(flat.as_slice(), &[0; 6], cells.as_mut_slice()),
        // Within the limits no number of a form gets so large.
        Err(AffError::Wide { .. }) => run_nest(nest, cells),
        Err(AffError::Memory) => return Err(AllocError),
    }
    Ok(())
}
