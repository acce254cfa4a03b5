//! Bounds none of which says what another one says already.

ghost use Rattle.std.specs.Prelude.{◌≡◌, ◌⊎◌, ◌++◌, [], ◌∷◌, IfOk, IsTrue};
ghost use Rattle.ch_codegen.specs.Bounds.{Adds, Implies, IsBeyond, IsSaid, Thins};

use crate::same::same_coefs;
use ch_affine::List;
use ch_code::Bound;
use std::alloc::{AllocError, Global};

/// Whether a bound says all that another one says: they differ in their constants alone.
#[tactic(auto, using(crate::proofs::Said::implied))]
fn implies(is_low: bool, ours: &Bound, theirs: &Bound) -> bool
    ensures { IsTrue result → Implies is_low ours.now theirs.now }
{
    ours.divisor == theirs.divisor
        && same_coefs(&ours.form, &theirs.form)
        && is_beyond(is_low, ours.form.constant, theirs.form.constant)
}

/// Whether a number is at least another one, or, for highs, at most.
fn is_beyond(is_low: bool, ours: i64, theirs: i64) -> bool
    ensures { IsTrue result → IsBeyond is_low ours theirs }
{
    if is_low {
        ours >= theirs
    } else {
        ours <= theirs
    }
}

/// Whether one of the bounds says all that this one says.
fn is_said(is_low: bool, bounds: &[Bound], bound: &Bound) -> bool
    ensures { IsTrue result → IsSaid is_low bounds.now bound.now }
{
    for other in bounds {
        if implies(is_low, other, bound) {
            return true;
        }
    }
    false
}

fn copied_bound(alloc: Global, bound: &Bound) -> Result<Bound, AllocError>
    ensures { IfOk result (λ copy. copy ≡ bound.now) }
{
    Ok(Bound {
        form: bound.form.copied(alloc)?,
        divisor: bound.divisor,
    })
}

/// The bounds that are kept, and this one, unless the new one says all that it says.
fn with_unsaid(
    alloc: Global,
    is_low: bool,
    mut kept: List<Bound>,
    bound: &Bound,
    added: &Bound,
) -> Result<List<Bound>, AllocError>
    ensures { IfOk result (λ all. (all ≡ kept ++ bound.now ∷ [])
        ⊎ ((all ≡ kept) × Implies is_low added.now bound.now)) }
{
    if !implies(is_low, added, bound) {
        kept.push(copied_bound(alloc, bound)?)?;
    }
    Ok(kept)
}

/// Those of the bounds that say something beside the new one.
fn unsaid(
    alloc: Global,
    is_low: bool,
    bounds: &[Bound],
    added: &Bound,
) -> Result<List<Bound>, AllocError>
    ensures { IfOk result (λ kept. Thins is_low added.now bounds.now kept) }
{
    let mut kept = List::new(alloc);
    for bound in bounds {
        kept = with_unsaid(alloc, is_low, kept, bound, added)?;
    }
    Ok(kept)
}

/// The bounds and one more, without those that say nothing then.
pub(crate) fn with_simple(
    alloc: Global,
    is_low: bool,
    bounds: List<Bound>,
    bound: Bound,
) -> Result<List<Bound>, AllocError>
    ensures { IfOk result (λ all. Adds is_low bounds bound all) }
{
    if is_said(is_low, bounds.as_slice(), &bound) {
        return Ok(bounds);
    }
    let mut kept = unsaid(alloc, is_low, bounds.as_slice(), &bound)?;
    kept.push(bound)?;
    Ok(kept)
}
