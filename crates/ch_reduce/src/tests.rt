//! Which of some right sides accumulate, with answers by hand, and each law is called.

use crate::{
    accumulates, free_pairs_tell_relaxed, relaxed_does_same, relaxed_steps_do_same,
    sums_change_places,
};
use ch_affine::{Aff, Boxed, List};
use ch_nest::{Access, Body, Expr, Sub};
use std::alloc::{AllocError, Global};
use std::test::Fail;

/// `A[i + constant]` of array `array`.
fn access(alloc: Global, array: u32, constant: i64) -> Result<Access, AllocError> {
    let coefs = List::from_slice(alloc, &[1])?;
    let mut subs = List::new(alloc);
    if let Some(form) = Aff::new(coefs, constant) {
        subs.push(Sub { form, modulus: 0 })?;
    }
    Ok(Access { array, subs })
}

fn read(alloc: Global, array: u32, constant: i64) -> Result<Expr, AllocError> {
    Ok(Expr::Read(access(alloc, array, constant)?))
}

fn sum(alloc: Global, x: Expr, y: Expr) -> Result<Expr, AllocError> {
    Ok(Expr::Add(Boxed::new(alloc, x)?, Boxed::new(alloc, y)?))
}

fn difference(alloc: Global, x: Expr, y: Expr) -> Result<Expr, AllocError> {
    Ok(Expr::Sub(Boxed::new(alloc, x)?, Boxed::new(alloc, y)?))
}

/// Whether `A[i] = right` accumulates.
fn adds(alloc: Global, right: Expr) -> Result<bool, AllocError> {
    let write = access(alloc, 0, 0)?;
    Ok(accumulates(&Body { write, right }))
}

#[test]
fn right_sides_that_accumulate(rt: HostRuntime) -> Result<(), Fail> {
    let alloc = rt.alloc();
    // A[i] + B[i]
    let right = sum(alloc, read(alloc, 0, 0)?, read(alloc, 1, 0)?)?;
    assert!(rt; adds(alloc, right)?);
    // B[i] + A[i]
    let right = sum(alloc, read(alloc, 1, 0)?, read(alloc, 0, 0)?)?;
    assert!(rt; adds(alloc, right)?);
    // A[i] - B[i]
    let right = difference(alloc, read(alloc, 0, 0)?, read(alloc, 1, 0)?)?;
    assert!(rt; adds(alloc, right)?);
    // A[i] + 3
    let right = sum(alloc, read(alloc, 0, 0)?, Expr::Number(3))?;
    assert!(rt; adds(alloc, right)?);
    Ok(())
}

#[test]
fn right_sides_that_do_not(rt: HostRuntime) -> Result<(), Fail> {
    let alloc = rt.alloc();
    // B[i] - A[i]
    let right = difference(alloc, read(alloc, 1, 0)?, read(alloc, 0, 0)?)?;
    assert!(rt; !adds(alloc, right)?);
    // A[i + 1] + B[i]
    let right = sum(alloc, read(alloc, 0, 1)?, read(alloc, 1, 0)?)?;
    assert!(rt; !adds(alloc, right)?);
    // A[i] + A[i + 1]
    let right = sum(alloc, read(alloc, 0, 0)?, read(alloc, 0, 1)?)?;
    assert!(rt; !adds(alloc, right)?);
    // A[i] + A[i]
    let right = sum(alloc, read(alloc, 0, 0)?, read(alloc, 0, 0)?)?;
    assert!(rt; !adds(alloc, right)?);
    // A[i]
    let right = read(alloc, 0, 0)?;
    assert!(rt; !adds(alloc, right)?);
    // (A[i] + B[i]) + B[i]
    let inner = sum(alloc, read(alloc, 0, 0)?, read(alloc, 1, 0)?)?;
    let right = sum(alloc, inner, read(alloc, 1, 0)?)?;
    assert!(rt; !adds(alloc, right)?);
    Ok(())
}

#[test]
fn laws_are_called() {
    relaxed_does_same();
    relaxed_steps_do_same();
    sums_change_places();
    free_pairs_tell_relaxed();
}
