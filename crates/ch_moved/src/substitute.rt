//! Forms of new variables put in place of the first variables of rows.

ghost use Rattle.std.specs.Prelude.{◌≡◌, ◌≤◌, ◌<◌, ◌+◌, ◌^◌, ◌*ℤ◌, ◌+ℤ◌, pos, length};
ghost use Rattle.std.specs.Prelude.{map, ◌++◌, take, IfOk, OnOk, MatchOption};
ghost use Rattle.std.specs.List.{All};
ghost use Rattle.ch_affine.specs.Affine.{IsAtMost, IsSmall, dot, form};
ghost use Rattle.ch_moved.specs.Changed.{AllLong};
ghost use Rattle.ch_moved.specs.Spread.{column, constants, kept, spread, widened};
ghost use Rattle.ch_moved.specs.Substituted.{combined, substituted};
ghost use Rattle.ch_space.specs.Built.{zeros};

use ch_affine::wide::plus;
use ch_affine::{Aff, LARGEST_COEFFICIENT, List};
use std::alloc::{AllocError, Global};

fn product(left: i64, right: i64) -> i128
    requires left_small { IsAtMost (2 ^ 60) left }
    requires right_small { IsAtMost (2 ^ 60) right }
    ensures value { result ≡ left *ℤ right }
    ensures bound { IsAtMost (2 ^ 120) result }
{
    i128::from(left) * i128::from(right)
}

/// What the forms give to the coefficient of one new variable.
fn coefficient(factors: &[i64], forms: &[Aff], place: usize) -> i128
    requires few { length forms.now ≤ 10 }
    requires long { length forms.now ≤ length factors.now }
    requires small { All (IsAtMost (2 ^ 60)) factors.now }
    requires there { All (λ f. place < length f.coefs) forms.now }
    ensures { result ≡ dot factors.now (column place forms.now) }
{
    let mut sum = 0;
    for k in 0..forms.len() {
        let form = &forms[k];
        sum = plus(sum, product(factors[k], form.coefs.as_slice()[place]));
    }
    sum
}

/// A number and what the forms give to it.
fn constant(start: i64, factors: &[i64], forms: &[Aff]) -> i128
    requires few { length forms.now ≤ 10 }
    requires long { length forms.now ≤ length factors.now }
    requires start { IsAtMost (2 ^ 60) start }
    requires small { All (IsAtMost (2 ^ 60)) factors.now }
    ensures { result ≡ start +ℤ dot factors.now (constants forms.now) }
{
    let mut sum = i128::from(start);
    for k in 0..forms.len() {
        let form = &forms[k];
        sum = plus(sum, product(factors[k], form.constant));
    }
    sum
}

/// The number, where it is one of a form.
fn narrowed(number: i128) -> Option<i64>
    ensures { MatchOption result (IsAtMost (2 ^ 60) number → ⊥) (λ n. n ≡ number) }
{
    if number.unsigned_abs() > LARGEST_COEFFICIENT as u128 {
        return None;
    }
    Some(number as i64)
}

pub fn push_zeros(numbers: &mut List<i64>, count: usize) -> Result<(), AllocError>
    ensures { OnOk result (numbers.new ≡ numbers.old ++ zeros count) }
{
    for _k in 0..count {
        numbers.push(0)?;
    }
    Ok(())
}

pub(crate) fn push_all(numbers: &mut List<i64>, more: &[i64]) -> Result<(), AllocError>
    ensures { OnOk result (numbers.new ≡ numbers.old ++ more.now) }
{
    for number in more {
        numbers.push(*number)?;
    }
    Ok(())
}

/// The coefficients of the new variables in the row with the forms put in, or None where one passes
/// the limit of forms.
fn new_coefs(
    alloc: Global,
    variables: usize,
    forms: &[Aff],
    row: &Aff,
) -> Result<Option<List<i64>>, AllocError>
    requires few { length forms.now ≤ 10 }
    requires long { AllLong variables forms.now }
    requires old { length forms.now ≤ length row.now.coefs }
    ensures { IfOk result (λ new. MatchOption new (IsSmall (substituted variables forms.now row.now)
        → ⊥)
        (λ coefs. coefs ≡ (combined (take (length forms.now) row.now.coefs) forms.now (form (zeros variables) row.now.constant)).coefs)) }
{
    let mut coefs = List::with_capacity(alloc, variables)?;
    for place in 0..variables {
        let sum = coefficient(row.coefs.as_slice(), forms, place);
        let Some(number) = narrowed(sum) else {
            return Ok(None);
        };
        coefs.push(number)?;
    }
    Ok(Some(coefs))
}

/// The row with the forms put in place of its first variables, and with so many variables, on which
/// it does not depend, between the new ones and those that stay. None where one of its numbers
/// passes the limit of forms.
pub(crate) fn spread(
    alloc: Global,
    variables: usize,
    forms: &[Aff],
    between: usize,
    row: &Aff,
) -> Result<Option<Aff>, AllocError>
    requires few { length forms.now ≤ 10 }
    requires long { AllLong variables forms.now }
    requires old { length forms.now ≤ length row.now.coefs }
    requires room { variables + (between + length row.now.coefs) ≤ 4096 + length forms.now }
    ensures { IfOk result (λ new. MatchOption new (IsSmall (substituted variables forms.now row.now)
        → ⊥)
        (λ f. f ≡ spread variables forms.now between row.now)) }
{
    let Some(mut coefs) = new_coefs(alloc, variables, forms, row)? else {
        return Ok(None);
    };
    push_zeros(&mut coefs, between)?;
    push_all(&mut coefs, &row.coefs.as_slice()[forms.len()..])?;
    let sum = constant(row.constant, row.coefs.as_slice(), forms);
    let Some(constant) = narrowed(sum) else {
        return Ok(None);
    };
    Ok(Aff::new(coefs, constant))
}

/// The rows with the forms put in place of their first variables, or None where a number passes the
/// limit of forms.
pub(crate) fn substituted(
    alloc: Global,
    variables: usize,
    forms: &[Aff],
    rows: &[Aff],
) -> Result<Option<List<Aff>>, AllocError>
    requires few { length forms.now ≤ 10 }
    requires long { AllLong variables forms.now }
    requires old { All (λ f. length forms.now ≤ length f.coefs) rows.now }
    requires room { All (λ f. variables + length f.coefs ≤ 4096 + length forms.now) rows.now }
    ensures { IfOk result (λ new. MatchOption new (All (λ f.
        IsSmall (substituted variables forms.now f)) rows.now → ⊥)
        (λ fs. fs ≡ map (substituted variables forms.now) rows.now)) }
{
    let mut new = List::with_capacity(alloc, rows.len())?;
    for row in rows {
        let Some(row) = spread(alloc, variables, forms, 0, row)? else {
            return Ok(None);
        };
        new.push(row)?;
    }
    Ok(Some(new))
}
