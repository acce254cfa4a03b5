//! The accesses of an array in a body.

ghost use Rattle.std.specs.Prelude.{◌≡◌, ◌↔◌, IfOk, IsTrue, OnOk};
ghost use Rattle.std.specs.List.{filter};
ghost use Rattle.ch_copied.specs.Accesses.{names, read_accesses, written_accesses};
ghost use Rattle.ch_datacopy.specs.Adding.{added};
ghost use Rattle.ch_timed.specs.Conflict.{reads};
ghost use Rattle.ch_timed.specs.Members.{In};

use ch_affine::List;
use ch_nest::{Access, Body, Expr};
use ch_order::same_access;
use ch_space::copies::copied_access;
use std::alloc::{AllocError, Global};

/// Whether the access is one of these.
fn contains(accesses: &[Access], access: &Access) -> bool
    ensures { IsTrue result ↔ In access.now accesses.now }
{
    for other in accesses {
        if same_access(other, access) {
            return true;
        }
    }
    false
}

/// Adds the accesses of the array that a right side reads, from left to right, each that isn't
/// there yet.
#[tactic(auto, using(crate::proofs::Added::names_append, crate::proofs::Added::added_append))]
fn push_reads(
    alloc: Global,
    accesses: &mut List<Access>,
    array: u32,
    expr: &Expr,
) -> Result<(), AllocError>
    ensures { OnOk result (accesses.new
        ≡ added accesses.old (filter (names array) (reads expr.now))) }
{
    match expr {
        Expr::Number(_) | Expr::Iter(_) => Ok(()),
        Expr::Read(access) => {
            if access.array == array && !contains(accesses.as_slice(), access) {
                accesses.push(copied_access(alloc, access)?)?;
            }
            Ok(())
        }
        Expr::Neg(x) => push_reads(alloc, accesses, array, x.get()),
        Expr::Add(x, y) | Expr::Sub(x, y) | Expr::Mul(x, y) => {
            push_reads(alloc, accesses, array, x.get())?;
            push_reads(alloc, accesses, array, y.get())
        }
    }
}

/// The different accesses of the array that a body reads, from left to right.
pub(crate) fn read_accesses(
    alloc: Global,
    array: u32,
    body: &Body,
) -> Result<List<Access>, AllocError>
    ensures { IfOk result (λ accesses. accesses ≡ read_accesses array body.now) }
{
    let mut accesses = List::new(alloc);
    push_reads(alloc, &mut accesses, array, &body.right)?;
    Ok(accesses)
}

/// The access of the array that a body writes, if it does.
pub(crate) fn written_accesses(
    alloc: Global,
    array: u32,
    body: &Body,
) -> Result<List<Access>, AllocError>
    ensures { IfOk result (λ accesses. accesses ≡ written_accesses array body.now) }
{
    let mut accesses = List::new(alloc);
    if body.write.array == array {
        accesses.push(copied_access(alloc, &body.write)?)?;
    }
    Ok(accesses)
}
