//! A system of rows over ranges while it is made, and what the solver says of it.

ghost use Rattle.std.specs.Prelude.{◌≡◌, ◌≤◌, ◌≤ℤ◌, ◌+◌, ◌^◌, ◌+ℤ◌, ◌-ℤ◌, ◌*ℤ◌, ◌++◌, [], neg_ℤ};
ghost use Rattle.std.specs.Prelude.{pos, ℤ, List, length, map, drop, take, IsTrue, IfOk, OnOk};
ghost use Rattle.std.specs.List.{All};
ghost use Rattle.ch_affine.specs.Affine.{IsAtMost, dot, form, value};
ghost use Rattle.ch_meeting.specs.Drafts.{IsDraft, IsLeastFit, Narrows, NoneFits, system_of};
ghost use Rattle.ch_poly.specs.Boxes.{at};
ghost use Rattle.ch_space.specs.Built.{padded};

use ch_affine::{Aff, List, Range, System};
use ch_poly::{excluded, least_point};
use std::alloc::{AllocError, Global};
use std::mem::replace;

/// Ranges of variables, and rows over them.
#[derive(Debug, Drop)]
pub(crate) struct Draft {
    pub(crate) boxes: List<Range>,
    pub(crate) rows: List<Aff>,
}

/// Fills the coefficients up with zeros.
fn pad(coefs: &mut List<i64>, count: usize) -> Result<(), AllocError>
    requires { length coefs.old ≤ count }
    ensures { OnOk result (coefs.new ≡ padded count coefs.old) }
{
    for _k in coefs.len()..count {
        coefs.push(0)?;
    }
    Ok(())
}

fn extend(coefs: &mut List<i64>, more: &[i64]) -> Result<(), AllocError>
    ensures { OnOk result (coefs.new ≡ coefs.old ++ more.now) }
{
    for coef in more {
        coefs.push(*coef)?;
    }
    Ok(())
}

fn extend_negated(coefs: &mut List<i64>, more: &[i64]) -> Result<(), AllocError>
    requires { All (IsAtMost (2 ^ 60)) more.now }
    ensures { OnOk result (coefs.new ≡ coefs.old ++ map neg_ℤ more.now) }
{
    for coef in more {
        coefs.push(-*coef)?;
    }
    Ok(())
}

/// The coefficients of a row in which no variable has one, with memory for so many.
pub(crate) fn no_coefs(alloc: Global, variables: usize) -> Result<List<i64>, AllocError>
    ensures long { IfOk result (λ coefs. length coefs ≡ 0) }
    ensures small { IfOk result (λ coefs. All (IsAtMost (2 ^ 60)) coefs) }
    ensures sum { IfOk result (λ coefs. (z : List ℤ) → dot coefs z ≡ pos 0) }
{
    List::with_capacity(alloc, variables)
}

/// Gives coefficients to the variables from `start` on.
pub(crate) fn add(coefs: &mut List<i64>, start: usize, more: &[i64]) -> Result<(), AllocError>
    requires after { length coefs.old ≤ start }
    requires small { All (IsAtMost (2 ^ 60)) coefs.old }
    requires small_more { All (IsAtMost (2 ^ 60)) more.now }
    ensures long { OnOk result (length coefs.new ≡ start + length more.now) }
    ensures small { OnOk result (All (IsAtMost (2 ^ 60)) coefs.new) }
    ensures sum { OnOk result ((z : List ℤ) → dot coefs.new z
        ≡ dot coefs.old z +ℤ dot more.now (drop start z)) }
{
    pad(coefs, start)?;
    extend(coefs, more)
}

/// Gives the negatives of these coefficients to the variables from `start` on.
pub(crate) fn subtract(coefs: &mut List<i64>, start: usize, more: &[i64]) -> Result<(), AllocError>
    requires after { length coefs.old ≤ start }
    requires small { All (IsAtMost (2 ^ 60)) coefs.old }
    requires small_more { All (IsAtMost (2 ^ 60)) more.now }
    ensures long { OnOk result (length coefs.new ≡ start + length more.now) }
    ensures small { OnOk result (All (IsAtMost (2 ^ 60)) coefs.new) }
    ensures sum { OnOk result ((z : List ℤ) → dot coefs.new z
        ≡ dot coefs.old z -ℤ dot more.now (drop start z)) }
{
    pad(coefs, start)?;
    extend_negated(coefs, more)
}

/// Gives a coefficient to one variable.
pub(crate) fn add_one(coefs: &mut List<i64>, variable: usize, coef: i64) -> Result<(), AllocError>
    requires after { length coefs.old ≤ variable }
    requires small { All (IsAtMost (2 ^ 60)) coefs.old }
    requires small_one { IsAtMost (2 ^ 60) coef }
    ensures long { OnOk result (length coefs.new ≡ variable + 1) }
    ensures small { OnOk result (All (IsAtMost (2 ^ 60)) coefs.new) }
    ensures sum { OnOk result ((z : List ℤ) → dot coefs.new z
        ≡ dot coefs.old z +ℤ (coef *ℤ at z variable)) }
{
    pad(coefs, variable)?;
    coefs.push(coef)
}

/// The row of these coefficients, in which no further variable has one.
pub(crate) fn row(mut coefs: List<i64>, variables: usize, constant: i64) -> Result<Aff, AllocError>
    requires fits { length coefs ≤ variables }
    requires few { variables ≤ 4096 }
    requires small { All (IsAtMost (2 ^ 60)) coefs }
    requires constant { IsAtMost (2 ^ 60) constant }
    ensures long { IfOk result (λ row. length row.coefs ≡ variables) }
    ensures value { IfOk result (λ row. (z : List ℤ) → value row z ≡ constant +ℤ dot coefs z) }
{
    pad(&mut coefs, variables)?;
    Ok(Aff { coefs, constant })
}

/// The row of the negative values.
fn opposite(alloc: Global, row: &Aff) -> Result<Aff, AllocError>
    ensures { IfOk result (λ other.
        other ≡ form (map neg_ℤ row.now.coefs) (neg_ℤ row.now.constant)) }
{
    let mut coefs = List::with_capacity(alloc, row.coefs.len())?;
    extend_negated(&mut coefs, row.coefs.as_slice())?;
    Ok(Aff {
        coefs,
        constant: -row.constant,
    })
}

impl Draft {
    /// A draft without rows.
    pub(crate) fn new(alloc: Global, boxes: List<Range>) -> Draft
        ensures boxes { result.boxes ≡ boxes }
        ensures rows { result.rows ≡ [] }
    {
        Draft {
            boxes,
            rows: List::new(alloc),
        }
    }

    /// Asks for points at which the row is at least 0.
    pub(crate) fn at_least_zero(&mut self, row: Aff) -> Result<(), AllocError>
        requires draft { IsDraft self.old }
        requires long { length row.coefs ≡ length self.old.boxes }
        ensures { OnOk result (Narrows self.old self.new (λ z. pos 0 ≤ℤ value row z)) }
    {
        self.rows.push(row)
    }

    /// Asks for points at which the row is 0.
    pub(crate) fn zero(&mut self, alloc: Global, row: Aff) -> Result<(), AllocError>
        requires draft { IsDraft self.old }
        requires long { length row.coefs ≡ length self.old.boxes }
        ensures { OnOk result (Narrows self.old self.new (λ z. value row z ≡ pos 0)) }
    {
        let other = opposite(alloc, &row)?;
        self.rows.push(row)?;
        self.rows.push(other)
    }

    /// The system of the ranges and rows, which the draft is left without.
    fn lend(&mut self, alloc: Global) -> System
        requires { IsDraft self.old }
        ensures { result ≡ system_of self.old }
    {
        let rows = replace(&mut self.rows, List::new(alloc));
        let boxes = replace(&mut self.boxes, List::new(alloc));
        System {
            vars: boxes.len() as u32,
            rows,
            boxes,
        }
    }

    /// Takes the ranges and rows of a system back.
    fn take_back(&mut self, system: System)
        ensures boxes { self.new.boxes ≡ system.boxes }
        ensures rows { self.new.rows ≡ system.rows }
    {
        let System { rows, boxes, .. } = system;
        self.rows = rows;
        self.boxes = boxes;
    }

    /// The least point. All its variables count, from the first on.
    pub(crate) fn least(&mut self, alloc: Global) -> Result<Option<List<i64>>, AllocError>
        requires { IsDraft self.old }
        ensures draft { OnOk result (self.new ≡ self.old) }
        ensures least { IfOk result (λ point. IsLeastFit self.old point) }
    {
        let system = self.lend(alloc);
        let point = least_point(alloc, &system)?;
        self.take_back(system);
        Ok(point)
    }

    /// Whether one row, or two, already tell that no point fits.
    pub(crate) fn is_excluded(&mut self, alloc: Global) -> bool
        requires { IsDraft self.old }
        ensures draft { self.new ≡ self.old }
        ensures none { IsTrue result → NoneFits self.old }
    {
        let system = self.lend(alloc);
        let excluded = excluded(&system).is_some();
        self.take_back(system);
        excluded
    }

    /// Forgets the rows behind the first `count`.
    pub(crate) fn keep_rows(&mut self, count: usize)
        ensures boxes { self.new.boxes ≡ self.old.boxes }
        ensures rows { self.new.rows ≡ take count self.old.rows }
    {
        'spare: while self.rows.len() > count {
            let _ = self.rows.pop();
        }
    }
}
