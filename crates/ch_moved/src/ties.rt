//! Rows over new variables and, as hidden ones, the old variables that forms give.

ghost use Rattle.std.specs.Prelude.{◌≡◌, ◌≤◌, ◌+◌, ◌++◌, ◌∷◌, [], pos};
ghost use Rattle.std.specs.Prelude.{negsuc, length, map, IfOk, OnOk};
ghost use Rattle.std.specs.List.{All};
ghost use Rattle.ch_affine.specs.Affine.{IsAtMost};
ghost use Rattle.ch_moved.specs.Changed.{AllLong, IsOver, StandOver};
ghost use Rattle.ch_moved.specs.Spread.{kept, opposite, tied, ties, widened};

use crate::bounds::opposite;
use crate::substitute::{push_all, push_zeros, spread};
use ch_affine::{Aff, List, System};
use std::alloc::{AllocError, Global};

/// The form of so many more variables, on which it does not depend.
fn widened(alloc: Global, more: usize, form: &Aff) -> Result<Aff, AllocError>
    requires room { length form.now.coefs + more ≤ 4096 }
    ensures { IfOk result (λ row. row ≡ widened more form.now) }
{
    let mut coefs = List::from_slice(alloc, form.coefs.as_slice())?;
    push_zeros(&mut coefs, more)?;
    Ok(Aff {
        coefs,
        constant: form.constant,
    })
}

/// Adds the forms, of so many more variables.
pub(crate) fn push_widened(
    alloc: Global,
    rows: &mut List<Aff>,
    more: usize,
    forms: &[Aff],
) -> Result<(), AllocError>
    requires room { All (λ f. length f.coefs + more ≤ 4096) forms.now }
    ensures { OnOk result (rows.new ≡ rows.old ++ map (widened more) forms.now) }
{
    for form in forms {
        rows.push(widened(alloc, more, form)?)?;
    }
    Ok(())
}

/// The form of variables that have so many others before them.
fn kept(alloc: Global, before: usize, form: &Aff) -> Result<Aff, AllocError>
    requires room { before + length form.now.coefs ≤ 4096 }
    ensures { IfOk result (λ row. row ≡ kept before form.now) }
{
    let mut coefs = List::new(alloc);
    push_zeros(&mut coefs, before)?;
    push_all(&mut coefs, form.coefs.as_slice())?;
    Ok(Aff {
        coefs,
        constant: form.constant,
    })
}

/// The row with the forms put in, or where a number of this passes the limit of forms the row as it
/// is, over the hidden variables.
fn row_over(alloc: Global, variables: usize, forms: &[Aff], row: &Aff) -> Result<Aff, AllocError>
    requires few { length forms.now ≤ 10 }
    requires long { AllLong variables forms.now }
    requires old { length forms.now ≤ length row.now.coefs }
    requires room { variables + length row.now.coefs ≤ 4096 }
    ensures { IfOk result (λ new. IsOver variables forms.now row.now new) }
{
    match spread(alloc, variables, forms, forms.len(), row)? {
        Some(new) => Ok(new),
        None => kept(alloc, variables, row),
    }
}

/// Adds the rows, each with the forms put in or as it is.
fn push_over(
    alloc: Global,
    rows: &mut List<Aff>,
    variables: usize,
    forms: &[Aff],
    old: &System,
) -> Result<(), AllocError>
    requires few { length forms.now ≤ 10 }
    requires long { AllLong variables forms.now }
    requires old { length forms.now ≤ old.now.vars }
    requires room { variables + old.now.vars ≤ 4096 }
    ensures { OnOk result (StandOver rows.old variables old.now.vars forms.now old.now.rows rows.new) }
{
    for row in old.rows.as_slice() {
        rows.push(row_over(alloc, variables, forms, row)?)?;
    }
    Ok(())
}

/// The form and a multiple of one more variable, which has so many others before it and behind it.
fn tied(
    alloc: Global,
    form: &Aff,
    before: usize,
    number: i64,
    after: usize,
) -> Result<Aff, AllocError>
    requires number { IsAtMost 1 number }
    requires room { length form.now.coefs + (before + 1 + after) ≤ 4096 }
    ensures { IfOk result (λ row. row ≡ tied form.now before number after) }
{
    let mut coefs = List::from_slice(alloc, form.coefs.as_slice())?;
    push_zeros(&mut coefs, before)?;
    coefs.push(number)?;
    push_zeros(&mut coefs, after)?;
    Ok(Aff {
        coefs,
        constant: form.constant,
    })
}

/// Adds the rows by which one of the hidden variables is the form's value.
fn push_tie(
    alloc: Global,
    rows: &mut List<Aff>,
    form: &Aff,
    before: usize,
    after: usize,
) -> Result<(), AllocError>
    requires room { length form.now.coefs + (before + 1 + after) ≤ 4096 }
    ensures { OnOk result (rows.new
        ≡ rows.old ++ tied form.now before (negsuc 0) after ∷ tied (opposite form.now) before (pos 1) after ∷ []) }
{
    rows.push(tied(alloc, form, before, -1, after)?)?;
    let opposite = opposite(alloc, form)?;
    rows.push(tied(alloc, &opposite, before, 1, after)?)
}

/// Adds the rows by which the first of so many hidden variables are the values of the forms.
fn push_ties(
    alloc: Global,
    rows: &mut List<Aff>,
    forms: &[Aff],
    hidden: usize,
) -> Result<(), AllocError>
    requires few { length forms.now ≤ hidden }
    requires room { All (λ f. length f.coefs + hidden ≤ 4096) forms.now }
    ensures { OnOk result (rows.new ≡ rows.old ++ ties 0 hidden forms.now) }
{
    for k in 0..forms.len() {
        push_tie(alloc, rows, &forms[k], k, hidden - 1 - k)?;
    }
    Ok(())
}

/// The rows of a system over new variables and, as hidden ones, all of its own, the first of which
/// are the values of the forms.
pub(crate) fn tied_rows(
    alloc: Global,
    variables: usize,
    forms: &[Aff],
    old: &System,
) -> Result<List<Aff>, AllocError>
    requires few { length forms.now ≤ 10 }
    requires long { AllLong variables forms.now }
    requires old { length forms.now ≤ old.now.vars }
    requires room { variables + old.now.vars ≤ 4096 }
    ensures { IfOk result (λ new.
        StandOver (ties 0 old.now.vars forms.now) variables old.now.vars forms.now old.now.rows new) }
{
    let mut rows = List::new(alloc);
    push_ties(alloc, &mut rows, forms, old.vars as usize)?;
    push_over(alloc, &mut rows, variables, forms, old)?;
    Ok(rows)
}
