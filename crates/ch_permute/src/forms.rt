//! The forms that give the old loop values from the new ones.

ghost use Rattle.std.specs.Prelude.{◌≡◌, ℕ, ◌+◌, ◌-◌, ◌<◌, ◌≤◌, ◌^◌, ◌++◌, ◌∷◌, []};
ghost use Rattle.std.specs.Prelude.{neg_ℤ, length, map, slice_index_or, IfOk, OnOk};
ghost use Rattle.std.specs.List.{All};
ghost use Rattle.ch_affine.specs.Affine.{form, IsAtMost};
ghost use Rattle.ch_permute.specs.Lowered.{less, minus_forms};
ghost use Rattle.ch_permute.specs.Permuted.{is_permutation};
ghost use Rattle.ch_permute.specs.Turned.{target, turned_forms};
ghost use Rattle.ch_space.specs.Built.{unit, zeros};

use crate::ordering::target;
use ch_affine::{Aff, List};
use ch_moved::units::{push_unit, unit};
use std::alloc::{AllocError, Global};

fn push_negatives(numbers: &mut List<i64>, amounts: &[i64]) -> Result<(), AllocError>
    requires small { All (IsAtMost (2 ^ 59)) amounts.now }
    ensures { OnOk result (numbers.new ≡ numbers.old ++ map neg_ℤ amounts.now) }
{
    for amount in amounts {
        numbers.push(-*amount)?;
    }
    Ok(())
}

/// The form of the one variable behind those of the amounts and `gap` more, less the amounts times
/// their variables.
fn less(
    alloc: Global,
    amounts: &[i64],
    amount: i64,
    gap: usize,
    after: usize,
) -> Result<Aff, AllocError>
    requires few { length amounts.now + gap + after < 4096 }
    requires amounts { All (IsAtMost (2 ^ 59)) amounts.now }
    requires amount { IsAtMost (2 ^ 59) amount }
    ensures { IfOk result (λ made. made ≡ less (form amounts.now amount) gap after) }
{
    let mut coefs = List::new(alloc);
    push_negatives(&mut coefs, amounts)?;
    push_unit(&mut coefs, gap, after)?;
    Ok(Aff {
        coefs,
        constant: -amount,
    })
}

/// The forms of so many levels that change places.
pub(crate) fn turned_forms(
    alloc: Global,
    order: &[i64],
    levels: usize,
) -> Result<List<Aff>, AllocError>
    requires few { levels ≤ 10 }
    requires below { (k : ℕ) → k < levels → target order.now k < levels }
    ensures { IfOk result (λ forms. forms ≡ turned_forms (target order.now) levels) }
{
    let mut forms = List::new(alloc);
    for k in 0..levels {
        let to = target(order, k);
        forms.push(unit(alloc, to, levels - 1 - to)?)?;
    }
    Ok(forms)
}

/// One of the forms of so many levels, that of `level` less the amounts times the levels before it.
fn minus_form(
    alloc: Global,
    amounts: &[i64],
    amount: i64,
    level: usize,
    levels: usize,
    k: usize,
) -> Result<Aff, AllocError>
    requires few { levels ≤ 10 }
    requires level { level < levels }
    requires before { length amounts.now ≤ level }
    requires amounts { All (IsAtMost (2 ^ 59)) amounts.now }
    requires amount { IsAtMost (2 ^ 59) amount }
    requires k { k < levels }
    ensures { IfOk result (λ made.
        made ≡ slice_index_or (minus_forms (form amounts.now amount) level levels) k (unit 0 0)) }
{
    if k == level {
        less(
            alloc,
            amounts,
            amount,
            level - amounts.len(),
            levels - 1 - level,
        )
    } else {
        unit(alloc, k, levels - 1 - k)
    }
}

/// The forms of so many levels, that of `level` less the amounts times the levels before it.
pub(crate) fn minus_forms(
    alloc: Global,
    amounts: &[i64],
    amount: i64,
    level: usize,
    levels: usize,
) -> Result<List<Aff>, AllocError>
    requires few { levels ≤ 10 }
    requires level { level < levels }
    requires before { length amounts.now ≤ level }
    requires amounts { All (IsAtMost (2 ^ 59)) amounts.now }
    requires amount { IsAtMost (2 ^ 59) amount }
    ensures { IfOk result (λ forms. forms ≡ minus_forms (form amounts.now amount) level levels) }
{
    let mut forms = List::new(alloc);
    for k in 0..levels {
        forms.push(minus_form(alloc, amounts, amount, level, levels, k)?)?;
    }
    Ok(forms)
}
