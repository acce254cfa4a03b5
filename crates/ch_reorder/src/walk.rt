//! The least reversed pair by going through all pairs of elements: slow, plain, and apart from the
//! solver.

use ch_affine::List;
use ch_depends::Pair;
use ch_nest::{Access, Expr, Sub};
use ch_timed::{Cell, Element, Identity, Timed};
use std::alloc::{AllocError, Global};

/// The elements of a list, in order. Longer lists than the cases have are cut off.
pub(crate) fn elements<T: Timed>(alloc: Global, list: &T) -> Result<Vec<Element>, AllocError> {
    let mut elements = Vec::new(alloc);
    let mut vector: List<i64> = List::new(alloc);
    for _ in 0..4096 {
        match list.after(alloc, vector.as_slice())? {
            None => break,
            Some(element) => {
                vector = List::from_slice(alloc, element.vector.as_slice())?;
                elements.push(element)?;
            }
        }
    }
    Ok(elements)
}

fn subscript(sub: &Sub, iters: &[i64]) -> i64 {
    let mut value = sub.form.constant;
    for (coef, iter) in sub.form.coefs.as_slice().iter().zip(iters) {
        value = value.wrapping_add(coef.wrapping_mul(*iter));
    }
    if sub.modulus == 0 {
        return value;
    }
    value.rem_euclid(i64::from(sub.modulus))
}

fn push_cell(
    alloc: Global,
    cells: &mut Vec<Cell>,
    access: &Access,
    iters: &[i64],
) -> Result<(), AllocError> {
    let mut subs = List::new(alloc);
    for sub in access.subs.as_slice() {
        subs.push(subscript(sub, iters))?;
    }
    cells.push(Cell {
        array: access.array,
        subs,
    })?;
    Ok(())
}

/// Adds the cells that a right side reads, from left to right.
fn push_reads(
    alloc: Global,
    cells: &mut Vec<Cell>,
    right: &Expr,
    iters: &[i64],
) -> Result<(), AllocError> {
    match right {
        Expr::Number(_) | Expr::Iter(_) => Ok(()),
        Expr::Read(access) => push_cell(alloc, cells, access, iters),
        Expr::Neg(inner) => push_reads(alloc, cells, inner.get(), iters),
        Expr::Add(left, right) | Expr::Sub(left, right) | Expr::Mul(left, right) => {
            push_reads(alloc, cells, left.get(), iters)?;
            push_reads(alloc, cells, right.get(), iters)
        }
    }
}

/// The cells of an element: those that it reads, and then the one that it writes.
fn cells(alloc: Global, element: &Element) -> Result<Vec<Cell>, AllocError> {
    let iters = element.identity.iters.as_slice();
    let mut cells = Vec::new(alloc);
    push_reads(alloc, &mut cells, &element.body.right, iters)?;
    push_cell(alloc, &mut cells, &element.body.write, iters)?;
    Ok(cells)
}

fn same_cell(a: &Cell, b: &Cell) -> bool {
    a.array == b.array && a.subs.as_slice() == b.subs.as_slice()
}

/// Which of the first cells is the first that both access and one of them writes.
fn clash(ours: &[Cell], theirs: &[Cell]) -> Option<usize> {
    let (Some(our_write), Some(their_write)) = (ours.last(), theirs.last()) else {
        return None;
    };
    for k in 0..ours.len() {
        let cell = &ours[k];
        let both = theirs.iter().any(|other| same_cell(cell, other));
        if both && (same_cell(cell, our_write) || same_cell(cell, their_write)) {
            return Some(k);
        }
    }
    None
}

fn same_sub(a: &Sub, b: &Sub) -> bool {
    a.modulus == b.modulus
        && a.form.constant == b.form.constant
        && a.form.coefs.as_slice() == b.form.coefs.as_slice()
}

fn same_access(a: &Access, b: &Access) -> bool {
    let (ours, theirs) = (a.subs.as_slice(), b.subs.as_slice());
    a.array == b.array
        && ours.len() == theirs.len()
        && ours
            .iter()
            .zip(theirs)
            .all(|(sub, other)| same_sub(sub, other))
}

/// Whether a right side has an access of the array.
fn has_array(right: &Expr, array: u32) -> bool {
    match right {
        Expr::Number(_) | Expr::Iter(_) => false,
        Expr::Read(access) => access.array == array,
        Expr::Neg(inner) => has_array(inner.get(), array),
        Expr::Add(left, right) | Expr::Sub(left, right) | Expr::Mul(left, right) => {
            has_array(left.get(), array) || has_array(right.get(), array)
        }
    }
}

/// Whether the one part is what the element writes, and the other has nothing of its array.
fn adds_to(write: &Access, own: &Expr, other: &Expr) -> bool {
    match own {
        Expr::Read(access) => same_access(access, write) && !has_array(other, write.array),
        _ => false,
    }
}

/// Whether the element adds to what it writes, or takes from it.
fn adds(element: &Element) -> bool {
    let write = &element.body.write;
    match &element.body.right {
        Expr::Add(left, right) => {
            adds_to(write, left.get(), right.get()) || adds_to(write, right.get(), left.get())
        }
        Expr::Sub(left, right) => adds_to(write, left.get(), right.get()),
        _ => false,
    }
}

/// Whether both add to one array.
fn add_to_one(a: &Element, b: &Element) -> bool {
    adds(a) && adds(b) && a.body.write.array == b.body.write.array
}

fn same_identity(a: &Identity, b: &Identity) -> bool {
    a.label == b.label && a.iters.as_slice() == b.iters.as_slice()
}

pub(crate) fn place(elements: &[Element], identity: &Identity) -> usize {
    for k in 0..elements.len() {
        if same_identity(&elements[k].identity, identity) {
            return k;
        }
    }
    elements.len()
}

/// Whether the pair is that of the walk: the first pair in the order of the old list that conflicts
/// and that the new list has the other way round. Where sums are free, two elements that add to one
/// array may change places.
pub(crate) fn agrees<A: Timed, B: Timed>(
    alloc: Global,
    old: &A,
    new: &B,
    sums_are_free: bool,
    pair: Option<&Pair>,
) -> Result<bool, AllocError> {
    let olds = elements(alloc, old)?;
    let news = elements(alloc, new)?;
    for (k, first) in olds.iter().enumerate() {
        let ours = cells(alloc, first)?;
        let first_place = place(&news, &first.identity);
        for second in olds.iter().skip(k + 1) {
            if place(&news, &second.identity) >= first_place {
                continue;
            }
            if sums_are_free && add_to_one(first, second) {
                continue;
            }
            let theirs = cells(alloc, second)?;
            if let Some(clash) = clash(&ours, &theirs) {
                return Ok(is_pair(pair, first, second, ours.get(clash)));
            }
        }
    }
    Ok(pair.is_none())
}

fn is_pair(pair: Option<&Pair>, first: &Element, second: &Element, cell: Option<&Cell>) -> bool {
    match (pair, cell) {
        (Some(pair), Some(cell)) => {
            same_identity(&pair.first, &first.identity)
                && same_identity(&pair.second, &second.identity)
                && same_cell(&pair.cell, cell)
        }
        _ => false,
    }
}
