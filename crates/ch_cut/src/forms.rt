//! Forms that say at which loop values a loop is cut.

ghost use Rattle.std.specs.Prelude.{◌≡◌, ◌≤◌, ◌-◌, ◌^◌, length, IfOk};
ghost use Rattle.ch_affine.specs.Affine.{IsAtMost};
ghost use Rattle.ch_cut.specs.Forms.{IsModest, at_most, failing};
ghost use Rattle.ch_moved.specs.Spread.{widened};
ghost use Rattle.ch_space.specs.Built.{units};

use ch_affine::{Aff, List};
use ch_moved::units::{push_zeros, unit};
use std::alloc::{AllocError, Global};

/// The form that is at least 0 exactly where the other one isn't.
pub(crate) fn failing(alloc: Global, form: &Aff) -> Result<Aff, AllocError>
    requires { IsModest form.now }
    ensures { IfOk result (λ row. row ≡ failing form.now) }
{
    let mut coefs = List::with_capacity(alloc, form.coefs.len())?;
    for coef in form.coefs.as_slice() {
        coefs.push(-*coef)?;
    }
    Ok(Aff {
        coefs,
        constant: -form.constant - 1,
    })
}

/// The form over so many levels, on the last of which it does not depend.
pub(crate) fn over_levels(alloc: Global, form: &Aff, levels: usize) -> Result<Aff, AllocError>
    requires short { length form.now.coefs ≤ levels }
    requires few { levels ≤ 10 }
    ensures { IfOk result (λ row. row ≡ widened (levels - length form.now.coefs) form.now) }
{
    let mut coefs = List::from_slice(alloc, form.coefs.as_slice())?;
    push_zeros(&mut coefs, levels - form.coefs.len())?;
    Ok(Aff {
        coefs,
        constant: form.constant,
    })
}

/// The form that is at least 0 where the value of the level is at most the number.
pub(crate) fn at_most(alloc: Global, level: usize, number: i64) -> Result<Aff, AllocError>
    requires few { level ≤ 10 }
    requires number { IsAtMost (2 ^ 59) number }
    ensures { IfOk result (λ row. row ≡ at_most level number) }
{
    let mut coefs = List::new(alloc);
    push_zeros(&mut coefs, level.saturating_sub(1))?;
    coefs.push(-1)?;
    Ok(Aff {
        coefs,
        constant: number,
    })
}

/// The forms of all levels, which give the values themselves.
pub(crate) fn all_levels(alloc: Global, levels: usize) -> Result<List<Aff>, AllocError>
    requires { levels ≤ 10 }
    ensures { IfOk result (λ forms. forms ≡ units 0 levels) }
{
    let mut forms = List::with_capacity(alloc, levels)?;
    for k in 0..levels {
        forms.push(unit(alloc, k, levels - 1 - k)?)?;
    }
    Ok(forms)
}
