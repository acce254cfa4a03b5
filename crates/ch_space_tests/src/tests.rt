//! Small nests and their spaces.

use ch_affine::{Aff, List, Text};
use ch_nest::{Access, ArrayDecl, Body, Expr, Item, Nest, Sub};
use ch_space::{Space, SpaceError, count, of_nest, piece_count, pieces, places};
use ch_timed::Label;
use std::alloc::{AllocError, Global};
use std::test::Fail;

fn one<T: Drop>(alloc: Global, item: T) -> Result<List<T>, AllocError> {
    let mut list = List::new(alloc);
    list.push(item)?;
    Ok(list)
}

fn form(alloc: Global, coefs: &[i64], constant: i64) -> Result<Aff, Fail> {
    let coefs = List::from_slice(alloc, coefs)?;
    let form = Aff::new(coefs, constant).ok_or("a small form")?;
    Ok(form)
}

fn access(alloc: Global, coefs: &[i64], constant: i64) -> Result<Access, Fail> {
    let form = form(alloc, coefs, constant)?;
    let subs = one(alloc, Sub { form, modulus: 0 })?;
    Ok(Access { array: 0, subs })
}

fn steps_of(
    alloc: Global,
    low: Aff,
    high: Aff,
    step: u32,
    items: List<Item>,
) -> Result<Item, AllocError> {
    let lows = one(alloc, low)?;
    let highs = one(alloc, high)?;
    Ok(Item::Loop {
        lows,
        highs,
        step,
        items,
    })
}

fn loop_of(alloc: Global, low: Aff, high: Aff, items: List<Item>) -> Result<Item, AllocError> {
    steps_of(alloc, low, high, 1, items)
}

/// `A[i] = 1`
fn outer(alloc: Global) -> Result<Item, Fail> {
    let write = access(alloc, &[1], 0)?;
    let right = Expr::Number(1);
    let body = Body { write, right };
    Ok(Item::Assign { label: 0, body })
}

/// `A[j + shift] = A[i]`
fn inner(alloc: Global, shift: i64) -> Result<Item, Fail> {
    let write = access(alloc, &[0, 1], shift)?;
    let right = Expr::Read(access(alloc, &[1, 0], 0)?);
    let body = Body { write, right };
    Ok(Item::Assign { label: 1, body })
}

/// A loop over j from `first` to i.
fn below(alloc: Global, first: i64, item: Item) -> Result<Item, Fail> {
    let items = one(alloc, item)?;
    let low = form(alloc, &[0], first)?;
    let high = form(alloc, &[1], 0)?;
    Ok(loop_of(alloc, low, high, items)?)
}

/// A loop over i from 0 to below `rows`.
fn top(alloc: Global, rows: i64, items: List<Item>) -> Result<Item, Fail> {
    let low = form(alloc, &[], 0)?;
    let high = form(alloc, &[], rows.saturating_sub(1))?;
    Ok(loop_of(alloc, low, high, items)?)
}

fn three_cells(alloc: Global) -> Result<List<ArrayDecl>, AllocError> {
    let extents = List::from_slice(alloc, &[3])?;
    let name = Text::new(alloc);
    one(alloc, ArrayDecl { name, extents })
}

fn both(alloc: Global, first: Item, second: Item) -> Result<List<Item>, AllocError> {
    let mut items = one(alloc, first)?;
    items.push(second)?;
    Ok(items)
}

/// An array of three cells, and a loop over i below `rows`, with `A[i] = 1` and a loop over j from
/// `first` to i below it, with `A[j + shift] = A[i]`.
fn triangle(alloc: Global, rows: i64, first: i64, shift: i64) -> Result<Nest, Fail> {
    let second = below(alloc, first, inner(alloc, shift)?)?;
    let items = both(alloc, outer(alloc)?, second)?;
    let items = one(alloc, top(alloc, rows, items)?)?;
    let nest = Nest::new(three_cells(alloc)?, items).ok_or("a nest")?;
    Ok(nest)
}

#[test]
fn a_piece_for_each_statement(rt: HostRuntime) -> Result<(), Fail> {
    let alloc = rt.alloc();
    let space = of_nest(alloc, &triangle(alloc, 3, 0, 0)?)?;
    assert_eq!(rt; pieces(&space), 2);
    assert_eq!(rt; piece_count(&space, 0), 3);
    assert_eq!(rt; piece_count(&space, 1), 6);
    Ok(())
}

#[test]
fn no_piece_without_an_instance(rt: HostRuntime) -> Result<(), Fail> {
    let alloc = rt.alloc();
    let space = of_nest(alloc, &triangle(alloc, 3, 5, 0)?)?;
    assert_eq!(rt; pieces(&space), 1);
    assert_eq!(rt; count(&space), 3);
    Ok(())
}

/// `A[i] = label`
fn labelled(alloc: Global, label: u32) -> Result<Item, Fail> {
    let write = access(alloc, &[1], 0)?;
    let right = Expr::Number(i64::from(label));
    let body = Body { write, right };
    Ok(Item::Assign { label, body })
}

/// `for (i = first; i < end; i = i + 3)`, in an array of eight cells: an assignment, two more where
/// `2*i >= 3`, and a fourth.
fn stepped(alloc: Global, first: i64, end: i64) -> Result<Nest, Fail> {
    let row = form(alloc, &[2], -3)?;
    let inner = both(alloc, labelled(alloc, 1)?, labelled(alloc, 2)?)?;
    let mut items = both(alloc, labelled(alloc, 0)?, Item::If { row, items: inner })?;
    items.push(labelled(alloc, 3)?)?;
    let low = form(alloc, &[], first)?;
    let high = form(alloc, &[], end.saturating_sub(1))?;
    let items = one(alloc, steps_of(alloc, low, high, 3, items)?)?;
    let extents = List::from_slice(alloc, &[8])?;
    let name = Text::new(alloc);
    let arrays = one(alloc, ArrayDecl { name, extents })?;
    let nest = Nest::new(arrays, items).ok_or("a nest")?;
    Ok(nest)
}

#[test]
fn steps_and_conditions(rt: HostRuntime) -> Result<(), Fail> {
    let alloc = rt.alloc();
    let space = of_nest(alloc, &stepped(alloc, 1, 8)?)?;
    assert_eq!(rt; pieces(&space), 4);
    assert_eq!(rt; piece_count(&space, 0), 3);
    assert_eq!(rt; piece_count(&space, 1), 2);
    assert_eq!(rt; piece_count(&space, 3), 3);
    // The items of the condition stand in its place.
    assert_eq!(rt; places(&space, 2), [0, 2].as_slice());
    assert_eq!(rt; places(&space, 3), [0, 3].as_slice());
    Ok(())
}

#[test]
fn a_step_leaves_the_array(rt: HostRuntime) -> Result<(), Fail> {
    let alloc = rt.alloc();
    let refused = of_nest(alloc, &stepped(alloc, 2, 9)?);
    assert!(rt; matches!(refused, Err(SpaceError::OutOfRange { access: 0, .. })));
    Ok(())
}

#[test]
fn six_stepped_loops(rt: HostRuntime) -> Result<(), Fail> {
    let alloc = rt.alloc();
    let zeros = [0; 6];
    let write = access(alloc, &zeros, 0)?;
    let right = Expr::Number(1);
    let body = Body { write, right };
    let mut item = Item::Assign { label: 0, body };
    for depth in 0..6 {
        let around = &zeros[..5 - depth];
        let low = form(alloc, around, 1)?;
        let high = form(alloc, around, 3)?;
        item = steps_of(alloc, low, high, 2, one(alloc, item)?)?;
    }
    let nest = Nest::new(three_cells(alloc)?, one(alloc, item)?).ok_or("a nest")?;
    let space = of_nest(alloc, &nest)?;
    assert_eq!(rt; count(&space), 64);
    Ok(())
}
