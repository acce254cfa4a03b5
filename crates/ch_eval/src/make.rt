//! Makes code ready to run.

ghost use Rattle.std.specs.Prelude.{◌≡◌, ◌≤◌, length, IfOk, OnOk, IsTrue};
ghost use Rattle.std.specs.List.{list_all};
ghost use Rattle.ch_code.specs.WellFormed.{fits, leaf_fits};
ghost use Rattle.ch_code.specs.declared.code.Code.TheVariants.{Leaf};
ghost use Rattle.ch_timed.specs.declared.element.Label.{Label};
ghost use Rattle.ch_plan.specs.declared.plan.Plan.TheVariants.{Guard as GuardPlan};
ghost use Rattle.ch_plan.specs.Ready.{AreBases, HaveDepth, extents_in};
ghost use Rattle.ch_eval.specs.Made.{AreLimits, ArePlans, Grows, IsLoopOf};
ghost use Rattle.ch_eval.specs.Made.{IsPlan, IsRight, RightFits};

use ch_affine::{Boxed, List, System};
use ch_code::{Bound, Code};
use ch_nest::{Body, Expr};
use ch_plan::{Limit, Placed, Plan, Right, Site, spot_of, sum_of};
use std::alloc::{AllocError, Global};

#[cycle(right)]
fn boxed_right(alloc: Global, expr: &Expr, site: &Site) -> Result<Boxed<Right>, AllocError>
    requires bases { AreBases site.now.arrays.now }
    requires origin { HaveDepth site.now.around site.now.origin.now }
    requires fits { RightFits (length site.now.arrays.now) (length site.now.origin.now) expr.now }
    ensures { IfOk result (IsRight (extents_in site.now.arrays.now) site.now.origin.now
        site.now.around expr.now) }
{
    let right = right_of(alloc, expr, site)?;
    let right = Boxed::new(alloc, right)?;
    Ok(right)
}

#[cycle(right)]
fn right_of(alloc: Global, expr: &Expr, site: &Site) -> Result<Right, AllocError>
    requires bases { AreBases site.now.arrays.now }
    requires origin { HaveDepth site.now.around site.now.origin.now }
    requires fits { RightFits (length site.now.arrays.now) (length site.now.origin.now) expr.now }
    ensures { IfOk result (IsRight (extents_in site.now.arrays.now) site.now.origin.now
        site.now.around expr.now) }
{
    match expr {
        Expr::Number(n) => Ok(Right::Number(*n)),
        Expr::Iter(k) => {
            let sum = sum_of(alloc, &site.origin[*k as usize])?;
            Ok(Right::Value(sum))
        }
        Expr::Read(access) => {
            let spot = spot_of(alloc, access, site)?;
            Ok(Right::Read(spot))
        }
        Expr::Neg(x) => {
            let x = boxed_right(alloc, x.get(), site)?;
            Ok(Right::Neg(x))
        }
        Expr::Add(x, y) => {
            let left = boxed_right(alloc, x.get(), site)?;
            let right = boxed_right(alloc, y.get(), site)?;
            Ok(Right::Add(left, right))
        }
        Expr::Sub(x, y) => {
            let left = boxed_right(alloc, x.get(), site)?;
            let right = boxed_right(alloc, y.get(), site)?;
            Ok(Right::Sub(left, right))
        }
        Expr::Mul(x, y) => {
            let left = boxed_right(alloc, x.get(), site)?;
            let right = boxed_right(alloc, y.get(), site)?;
            Ok(Right::Mul(left, right))
        }
    }
}

fn limits_of(alloc: Global, bounds: &[Bound]) -> Result<List<Limit>, AllocError>
    ensures { IfOk result (AreLimits bounds.now) }
{
    let mut limits = List::with_capacity(alloc, bounds.len())?;
    for bound in bounds {
        let sum = sum_of(alloc, &bound.form)?;
        limits.push(Limit {
            sum,
            divisor: bound.divisor,
        })?;
    }
    Ok(limits)
}

/// What a plan needs besides: the places of its statements, the most loops around one another, and
/// the most variables and rows of a guard.
#[derive(Drop)]
pub(crate) struct Needs {
    pub(crate) places: List<List<u32>>,
    pub(crate) deep: usize,
    pub(crate) vars: u32,
    pub(crate) rows: usize,
}

#[tactic(auto, using(crate::proofs::Planning::grows_same, crate::proofs::Planning::grows_then, crate::proofs::Planning::grows_more, crate::proofs::Planning::grows_push))]
fn leaf_of(
    alloc: Global,
    body: &Body,
    places: &[u32],
    site: &Site,
    needs: &mut Needs,
) -> Result<Plan, AllocError>
    requires bases { AreBases site.now.arrays.now }
    requires fits { IsTrue (leaf_fits (length site.now.arrays.now) site.now.around body.now
        site.now.origin.now places.now) }
    ensures grows { Grows needs.old needs.new }
    ensures plan { IfOk result (λ plan. (label : Label)
        → IsPlan (extents_in site.now.arrays.now) site.now.around needs.new
        (Leaf label body.now site.now.origin.now places.now) plan) }
{
    let write = spot_of(alloc, &body.write, site)?;
    let right = right_of(alloc, &body.right, site)?;
    let leaf = needs.places.len();
    let copy = List::from_slice(alloc, places)?;
    needs.places.push(copy)?;
    Ok(Plan::Leaf { leaf, write, right })
}

fn loop_of(
    alloc: Global,
    lows: &[Bound],
    highs: &[Bound],
    around: usize,
    inner: Plan,
) -> Result<Plan, AllocError>
    ensures { IfOk result (IsLoopOf lows.now highs.now around inner) }
{
    let lows = limits_of(alloc, lows)?;
    let highs = limits_of(alloc, highs)?;
    let inner = Boxed::new(alloc, inner)?;
    Ok(Plan::Loop {
        level: around,
        lows,
        highs,
        inner,
    })
}

#[tactic(auto, using(crate::proofs::Planning::grows_same, crate::proofs::Planning::grows_then, crate::proofs::Planning::grows_more, crate::proofs::Planning::grows_push))]
fn guard_of(
    alloc: Global,
    system: &System,
    around: usize,
    inner: Plan,
    needs: &mut Needs,
) -> Result<Plan, AllocError>
    ensures grows { Grows needs.old needs.new }
    ensures vars { OnOk result (system.now.vars ≤ needs.new.vars) }
    ensures rows { OnOk result (length system.now.rows ≤ needs.new.rows) }
    ensures plan { IfOk result (λ plan. plan ≡ GuardPlan system.now around inner) }
{
    needs.vars = needs.vars.max(system.vars);
    needs.rows = needs.rows.max(system.rows.len());
    let system = system.copied(alloc)?;
    let inner = Boxed::new(alloc, inner)?;
    Ok(Plan::Guard {
        system,
        around,
        inner,
    })
}

#[cycle(plan)]
#[tactic(auto, using(crate::proofs::Planning::grows_same, crate::proofs::Planning::grows_then, crate::proofs::Planning::grows_more, crate::proofs::Planning::grows_push))]
fn plans_of(
    alloc: Global,
    arrays: &[Placed],
    parts: &[Code],
    around: usize,
    needs: &mut Needs,
) -> Result<List<Plan>, AllocError>
    requires bases { AreBases arrays.now }
    requires fits { IsTrue (list_all (λ part. fits (length arrays.now) part around) parts.now) }
    ensures grows { Grows needs.old needs.new }
    ensures plan { IfOk result (ArePlans (extents_in arrays.now) around needs.new parts.now) }
{
    let mut plans = List::with_capacity(alloc, parts.len())?;
    for part in parts {
        let plan = plan_of(alloc, arrays, part, around, needs)?;
        plans.push(plan)?;
    }
    Ok(plans)
}

#[cycle(plan)]
#[tactic(auto, using(crate::proofs::Planning::grows_same, crate::proofs::Planning::grows_then, crate::proofs::Planning::grows_more, crate::proofs::Planning::grows_push))]
pub(crate) fn plan_of(
    alloc: Global,
    arrays: &[Placed],
    code: &Code,
    around: usize,
    needs: &mut Needs,
) -> Result<Plan, AllocError>
    requires bases { AreBases arrays.now }
    requires fits { IsTrue (fits (length arrays.now) code.now around) }
    ensures grows { Grows needs.old needs.new }
    ensures plan { IfOk result (IsPlan (extents_in arrays.now) around needs.new code.now) }
{
    match code {
        Code::Seq(parts) => {
            let plans = plans_of(alloc, arrays, parts.as_slice(), around, needs)?;
            Ok(Plan::Seq(plans))
        }
        Code::Loop {
            level,
            lows,
            highs,
            inner,
        } => {
            let deeper = *level as usize;
            needs.deep = needs.deep.max(deeper);
            let inner = plan_of(alloc, arrays, inner.get(), deeper, needs)?;
            loop_of(alloc, lows.as_slice(), highs.as_slice(), around, inner)
        }
        Code::Guard { system, inner } => {
            let inner = plan_of(alloc, arrays, inner.get(), around, needs)?;
            guard_of(alloc, system, around, inner, needs)
        }
        Code::Leaf {
            body,
            origin,
            places,
            ..
        } => {
            let origin = origin.as_slice();
            let site = Site {
                arrays,
                origin,
                around,
            };
            leaf_of(alloc, body, places.as_slice(), &site, needs)
        }
    }
}
