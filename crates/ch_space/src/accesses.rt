ghost use Rattle.std.specs.Prelude.{◌≡◌, ◌^◌, ◌<◌, ◌+◌, length, map, ◌++◌, ◌∷◌, []};
ghost use Rattle.std.specs.Prelude.{take, IsTrue, IfOk, OnOk, Option, Some, None};
ghost use Rattle.std.specs.List.{All, list_all, sum};
ghost use Rattle.ch_affine.specs.Affine.{IsAtMost};
ghost use Rattle.ch_nest.specs.Arrays.{extents_of};
ghost use Rattle.ch_nest.specs.Run.{sub_value};
ghost use Rattle.ch_nest.specs.Shape.{access_fits, body_fits, sub_fits};
ghost use Rattle.ch_space.specs.Judged.{access_count, accesses_before, bodies};
ghost use Rattle.ch_space.specs.Judged.{bodies_of, first_leaving, text_accesses};
ghost use Rattle.ch_space.specs.JudgingWalk.{IsNear};
ghost use Rattle.ch_timed.specs.Conflict.{cell_of, reads};
ghost use Rattle.ch_timed.specs.declared.element.Label.TheVariants.{Stmt};

use crate::copies::copied_access;
use ch_affine::List;
use ch_nest::{Access, ArrayDecl, Body, Expr, Item, Sub, access_inside, sub_value};
use ch_timed::Cell;
use std::alloc::{AllocError, Global};

/// An access that leaves its array: its number among all accesses of the nest, in the order of the
/// text, and the cell that it names.
#[derive(Debug, Drop)]
pub(crate) struct Leaving {
    pub(crate) access: u32,
    pub(crate) cell: Cell,
}

/// Adds copies of the reads of a right side, from left to right.
fn push_reads(alloc: Global, expr: &Expr, accesses: &mut List<Access>) -> Result<(), AllocError>
    ensures { OnOk result (accesses.new ≡ accesses.old ++ reads expr.now) }
{
    match expr {
        Expr::Number(_) | Expr::Iter(_) => Ok(()),
        Expr::Read(access) => accesses.push(copied_access(alloc, access)?),
        Expr::Neg(inner) => push_reads(alloc, inner.get(), accesses),
        Expr::Add(left, right) | Expr::Sub(left, right) | Expr::Mul(left, right) => {
            push_reads(alloc, left.get(), accesses)?;
            push_reads(alloc, right.get(), accesses)
        }
    }
}

/// Copies of the accesses of a statement: the write, then the reads.
fn text_accesses(alloc: Global, body: &Body) -> Result<List<Access>, AllocError>
    ensures { IfOk result (λ accesses. accesses ≡ text_accesses body.now) }
{
    let mut accesses = List::new(alloc);
    accesses.push(copied_access(alloc, &body.write)?)?;
    push_reads(alloc, &body.right, &mut accesses)?;
    Ok(accesses)
}

/// How many accesses a statement has.
fn access_count(alloc: Global, body: &Body) -> Result<usize, AllocError>
    ensures { IfOk result (λ count. count ≡ access_count body.now) }
{
    Ok(text_accesses(alloc, body)?.len())
}

/// Adds the number of accesses of each statement of the items.
#[cycle(counts)]
#[tactic(auto, using(crate::proofs::Subscripted::counts_go_on, crate::proofs::Subscripted::counts_loop, crate::proofs::Subscripted::counts_assign))]
fn push_counts(alloc: Global, items: &[Item], counts: &mut List<usize>) -> Result<(), AllocError>
    ensures { OnOk result (counts.new ≡ counts.old ++ map access_count (bodies items.now)) }
{
    for item in items {
        push_item_counts(alloc, item, counts)?;
    }
    Ok(())
}

#[cycle(counts)]
#[tactic(auto, using(crate::proofs::Subscripted::counts_loop, crate::proofs::Subscripted::counts_if, crate::proofs::Subscripted::counts_assign))]
fn push_item_counts(alloc: Global, item: &Item, counts: &mut List<usize>) -> Result<(), AllocError>
    ensures { OnOk result (counts.new ≡ counts.old ++ map access_count (bodies_of item.now)) }
{
    match item {
        Item::Assign { body, .. } => counts.push(access_count(alloc, body)?),
        Item::Loop { items, .. } => push_counts(alloc, items.as_slice(), counts),
        Item::If { items, .. } => push_counts(alloc, items.as_slice(), counts),
    }
}

fn sum_of(counts: &[usize]) -> usize
    requires { sum counts.now < 2 ^ 32 }
    ensures { result ≡ sum counts.now }
{
    let mut total = 0;
    for count in counts {
        total += *count;
    }
    total
}

/// The sum of the first of these counts.
#[tactic(auto, using(std::proofs::lemmas::List::take_all, crate::proofs::AccessCounts::sum_take))]
fn sum_before(counts: &[usize], end: usize) -> usize
    requires { sum counts.now < 2 ^ 32 }
    ensures { result ≡ sum (take end counts.now) }
{
    if end < counts.len() {
        return sum_of(&counts[..end]);
    }
    sum_of(counts)
}

/// How many accesses the statements before one have.
#[tactic(auto, using(crate::proofs::AccessCounts::sum_take))]
pub(crate) fn accesses_before(alloc: Global, items: &[Item], label: u32) -> Result<u32, AllocError>
    requires few { sum (map access_count (bodies items.now)) < 2 ^ 32 }
    ensures { IfOk result (λ before. before ≡ accesses_before items.now (Stmt label)) }
{
    let mut counts = List::new(alloc);
    push_counts(alloc, items, &mut counts)?;
    Ok(sum_before(counts.as_slice(), label as usize) as u32)
}

/// A subscript at a point.
#[tactic(auto, using(crate::proofs::Subscripted::near_small))]
fn subscript_at(sub: &Sub, point: &[i64]) -> i64
    requires fits { IsTrue (sub_fits (length point.now) sub.now) }
    requires near { IsNear point.now }
    ensures { result ≡ sub_value point.now sub.now }
{
    sub_value(sub, point) as i64
}

/// The cell of an access at a point.
#[tactic(auto, using(crate::proofs::Subscripted::values_go_on, crate::proofs::Subscripted::sub_at))]
fn cell_at(alloc: Global, access: &Access, point: &[i64]) -> Result<Cell, AllocError>
    requires fit { IsTrue (list_all (sub_fits (length point.now)) access.now.subs) }
    requires near { IsNear point.now }
    ensures { IfOk result (λ cell. cell ≡ cell_of point.now access.now) }
{
    let mut subs = List::new(alloc);
    for sub in access.subs.as_slice() {
        subs.push(subscript_at(sub, point))?;
    }
    Ok(Cell {
        array: access.array,
        subs,
    })
}

/// The first access of a statement that leaves its array at a point, where its write has number
/// `before`.
#[tactic(auto, using(crate::proofs::Subscripted::text_fits))]
pub(crate) fn first_leaving(
    alloc: Global,
    arrays: &[ArrayDecl],
    body: &Body,
    point: &[i64],
    before: u32,
) -> Result<Option<Leaving>, AllocError>
    requires fits { IsTrue (body_fits arrays.now (length point.now) body.now) }
    requires near { IsNear point.now }
    requires few { before + access_count body.now < 2 ^ 32 }
    ensures { IfOk result (λ leaving.
        leaving ≡ first_leaving (extents_of arrays.now) point.now before (text_accesses body.now)) }
{
    let accesses = text_accesses(alloc, body)?;
    leaving_from(alloc, arrays, accesses.as_slice(), point, before)
}

/// The first of these accesses that leaves its array at a point, where the first one has number
/// `number`.
#[tactic(auto, using(crate::proofs::Subscripted::access_at, crate::proofs::Subscripted::near_small, crate::proofs::Subscripted::subs_at, crate::proofs::Subscripted::leaving_goes_on, crate::proofs::Subscripted::leaving_here))]
fn leaving_from(
    alloc: Global,
    arrays: &[ArrayDecl],
    accesses: &[Access],
    point: &[i64],
    number: u32,
) -> Result<Option<Leaving>, AllocError>
    requires fit { IsTrue (list_all (access_fits arrays.now (length point.now)) accesses.now) }
    requires near { IsNear point.now }
    requires few { number + length accesses.now < 2 ^ 32 }
    ensures { IfOk result (λ leaving.
        leaving ≡ first_leaving (extents_of arrays.now) point.now number accesses.now) }
{
    let mut here = number;
    for access in accesses {
        if !access_inside(arrays, access, point) {
            let cell = cell_at(alloc, access, point)?;
            return Ok(Some(Leaving { access: here, cell }));
        }
        here += 1;
    }
    Ok(None)
}
