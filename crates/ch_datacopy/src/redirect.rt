//! Bodies that work on a buffer in place of an array, and the bodies of moves.

ghost use Rattle.std.specs.Prelude.{◌≡◌, ◌+◌, ◌≤◌, ℕ, List, length, IfOk};
ghost use Rattle.ch_copied.specs.Bodies.{in_body, moved_cell, out_body, redirect, redirected, redirected_access, variables, wrapped};
ghost use Rattle.ch_copied.specs.Plans.{Plan};
ghost use Rattle.ch_datacopy.specs.Targets.{IsTarget};

use ch_affine::{Boxed, List};
use ch_moved::units::unit;
use ch_nest::{Access, Body, Expr, Sub};
use ch_space::copies::copied_access;
use std::alloc::{AllocError, Global};

/// Where the accesses of an array go: to the buffer of this number.
#[derive(Clone, Copy, Debug)]
pub(crate) struct Target {
    pub(crate) array: u32,
    pub(crate) buffer: u32,
}

/// The subscripts modulo the extents.
fn wrapped(alloc: Global, subs: &[Sub], extents: &[u32]) -> Result<List<Sub>, AllocError>
    ensures { IfOk result (λ new. new ≡ wrapped subs.now extents.now) }
{
    let mut new = List::with_capacity(alloc, subs.len())?;
    for (sub, extent) in subs.iter().zip(extents) {
        let form = sub.form.copied(alloc)?;
        new.push(Sub {
            form,
            modulus: *extent,
        })?;
    }
    Ok(new)
}

/// An access of its own, where it is of the array one of the buffer.
fn redirected_access(
    alloc: Global,
    target: Target,
    extents: &[u32],
    access: &Access,
) -> Result<Access, AllocError>
    ensures { (p : Plan) → IsTarget target extents.now p
        → IfOk result (λ new. new ≡ redirected_access p access.now) }
{
    if access.array != target.array {
        return copied_access(alloc, access);
    }
    Ok(Access {
        array: target.buffer,
        subs: wrapped(alloc, access.subs.as_slice(), extents)?,
    })
}

/// A right side of its own that reads the buffer in place of the array.
fn redirected_expr(
    alloc: Global,
    target: Target,
    extents: &[u32],
    expr: &Expr,
) -> Result<Expr, AllocError>
    ensures { (p : Plan) → IsTarget target extents.now p
        → IfOk result (λ new. new ≡ redirect p expr.now) }
{
    match expr {
        Expr::Number(number) => Ok(Expr::Number(*number)),
        Expr::Iter(level) => Ok(Expr::Iter(*level)),
        Expr::Read(access) => {
            let access = redirected_access(alloc, target, extents, access)?;
            Ok(Expr::Read(access))
        }
        Expr::Neg(inner) => {
            let inner = redirected_expr(alloc, target, extents, inner.get())?;
            Ok(Expr::Neg(Boxed::new(alloc, inner)?))
        }
        Expr::Add(left, right) => {
            let left = redirected_expr(alloc, target, extents, left.get())?;
            let right = redirected_expr(alloc, target, extents, right.get())?;
            Ok(Expr::Add(Boxed::new(alloc, left)?, Boxed::new(alloc, right)?))
        }
        Expr::Sub(left, right) => {
            let left = redirected_expr(alloc, target, extents, left.get())?;
            let right = redirected_expr(alloc, target, extents, right.get())?;
            Ok(Expr::Sub(Boxed::new(alloc, left)?, Boxed::new(alloc, right)?))
        }
        Expr::Mul(left, right) => {
            let left = redirected_expr(alloc, target, extents, left.get())?;
            let right = redirected_expr(alloc, target, extents, right.get())?;
            Ok(Expr::Mul(Boxed::new(alloc, left)?, Boxed::new(alloc, right)?))
        }
    }
}

/// The body that works on the buffer in place of the array.
pub(crate) fn redirected(
    alloc: Global,
    target: Target,
    extents: &[u32],
    body: &Body,
) -> Result<Body, AllocError>
    ensures { (p : Plan) → IsTarget target extents.now p
        → IfOk result (λ new. new ≡ redirected p body.now) }
{
    Ok(Body {
        write: redirected_access(alloc, target, extents, &body.write)?,
        right: redirected_expr(alloc, target, extents, &body.right)?,
    })
}

/// The variables from `before` on, one for each of the dimensions.
fn variables(alloc: Global, before: usize, dimensions: usize) -> Result<List<Sub>, AllocError>
    requires { before + dimensions ≤ 4096 }
    ensures { (extents : List ℕ) → length extents ≡ dimensions
        → IfOk result (λ subs. subs ≡ variables before extents) }
{
    let mut subs = List::with_capacity(alloc, dimensions)?;
    for k in 0..dimensions {
        let form = unit(alloc, before + k, dimensions - 1 - k)?;
        subs.push(Sub { form, modulus: 0 })?;
    }
    Ok(subs)
}

/// The access of the array's cell that the last iterators of a move name, behind so many others.
fn moved_cell(
    alloc: Global,
    target: Target,
    extents: &[u32],
    around: usize,
) -> Result<Access, AllocError>
    requires { around + length extents.now ≤ 4096 }
    ensures { (p : Plan) → IsTarget target extents.now p → p.around ≡ around
        → IfOk result (λ access. access ≡ moved_cell p) }
{
    Ok(Access {
        array: target.array,
        subs: variables(alloc, around, extents.len())?,
    })
}

/// The body of a move from the array into the buffer.
pub(crate) fn in_body(
    alloc: Global,
    target: Target,
    extents: &[u32],
    around: usize,
) -> Result<Body, AllocError>
    requires { around + length extents.now ≤ 4096 }
    ensures { (p : Plan) → IsTarget target extents.now p → p.around ≡ around
        → IfOk result (λ body. body ≡ in_body p) }
{
    let cell = moved_cell(alloc, target, extents, around)?;
    Ok(Body {
        write: redirected_access(alloc, target, extents, &cell)?,
        right: Expr::Read(cell),
    })
}

/// The body of a move from the buffer back into the array.
pub(crate) fn out_body(
    alloc: Global,
    target: Target,
    extents: &[u32],
    around: usize,
) -> Result<Body, AllocError>
    requires { around + length extents.now ≤ 4096 }
    ensures { (p : Plan) → IsTarget target extents.now p → p.around ≡ around
        → IfOk result (λ body. body ≡ out_body p) }
{
    let cell = moved_cell(alloc, target, extents, around)?;
    let redirected = redirected_access(alloc, target, extents, &cell)?;
    Ok(Body {
        write: cell,
        right: Expr::Read(redirected),
    })
}
