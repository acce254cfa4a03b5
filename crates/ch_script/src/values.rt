//! A condition as an affine form of the loop values, once each parameter has a value.
ghost use Rattle.std.specs.Prelude.{◌≡◌, ◌≤◌, ◌+◌, ◌*◌, ◌^◌, ℤ, pos, ◌+ℤ◌, ◌-ℤ◌, max, length};
ghost use Rattle.std.specs.Prelude.{map, slice_index_or, unsigned_abs, IfOk, IsTrue, true};
ghost use Rattle.std.specs.List.{All, list_all};
ghost use Rattle.ch_affine.specs.Affine.{IsAtMost};
ghost use Rattle.ch_script.specs.Recipes.{condition_fits, term_fits};
ghost use Rattle.ch_script.specs.Values.{above, coef_between, coef_of, condition};
ghost use Rattle.ch_script.specs.Values.{constant_between, constant_of, greatest_level};
ghost use Rattle.ch_script.specs.Values.{level_in, levels_from, levels_in, signed, total};
ghost use Rattle.ch_script.specs.declared.recipe.Purpose.TheVariants.{Split};

use crate::recipe::{Cond, Of, Relation, Term};
use ch_affine::{Aff, List};
use std::alloc::{AllocError, Global};

/// What a term adds to the coefficient of a level.
fn coef_of(level: u32, term: &Term) -> i64
    ensures exact { result ≡ coef_of level term.now }
    ensures small { unsigned_abs result ≤ 2 ^ 32 }
{
    match term.of {
        Of::Level(k) => {
            if k != level {
                0
            } else if term.negative {
                -i64::from(term.factor)
            } else {
                i64::from(term.factor)
            }
        }
        _ => 0,
    }
}

fn value_of(values: &[i64], param: u32) -> i64
    requires values { All (IsAtMost (2 ^ 20)) values.now }
    ensures exact { result ≡ slice_index_or values.now param (pos 0) }
    ensures small { unsigned_abs result ≤ 2 ^ 20 }
{
    match values.get(param as usize) {
        Some(value) => *value,
        None => 0,
    }
}

/// What a term of a split's condition adds to the constant.
fn constant_of(values: &[i64], term: &Term) -> i64
    requires values { All (IsAtMost (2 ^ 20)) values.now }
    ensures exact { result ≡ constant_of values.now term.now }
    ensures small { unsigned_abs result ≤ 2 ^ 32 }
{
    let size = match term.of {
        Of::One => i64::from(term.factor),
        Of::Level(_) => 0,
        Of::Param(k) => value_of(values, k),
    };
    if term.negative { -size } else { size }
}

/// The coefficient of a level in a sum.
#[tactic(auto, using(crate::proofs::ValuesFit::total_more))]
fn coef(level: u32, terms: &[Term]) -> i64
    requires few { length terms.now ≤ 2 ^ 20 }
    ensures exact { result ≡ total (coef_of level) terms.now }
    ensures small { unsigned_abs result ≤ 2 ^ 52 }
{
    let mut sum: i64 = 0;
    for term in terms {
        sum += coef_of(level, term);
    }
    sum
}

/// The constant of a sum.
#[tactic(auto, using(crate::proofs::ValuesFit::total_more))]
fn constant(values: &[i64], terms: &[Term]) -> i64
    requires few { length terms.now ≤ 2 ^ 20 }
    requires values { All (IsAtMost (2 ^ 20)) values.now }
    ensures exact { result ≡ total (constant_of values.now) terms.now }
    ensures small { unsigned_abs result ≤ 2 ^ 52 }
{
    let mut sum: i64 = 0;
    for term in terms {
        sum += constant_of(values, term);
    }
    sum
}

fn level_in(of: Of) -> u32
    ensures { result ≡ level_in of }
{
    match of {
        Of::Level(l) => l,
        _ => 0,
    }
}

/// The greatest level that is named.
#[tactic(auto, using(crate::proofs::ValuesFit::greatest_more))]
fn greatest_level(terms: &[Term]) -> u32
    ensures { result ≡ greatest_level terms.now }
{
    let mut greatest = 0;
    for term in terms {
        greatest = level_in(term.of).max(greatest);
    }
    greatest
}

fn levels_in(more: &[Term], less: &[Term]) -> u32
    ensures { result ≡ levels_in more.now less.now }
{
    greatest_level(more).max(greatest_level(less))
}

/// The coefficient of a level in the difference of two sums.
fn coef_between(level: u32, more: &[Term], less: &[Term]) -> i64
    requires more { length more.now ≤ 2 ^ 20 }
    requires less { length less.now ≤ 2 ^ 20 }
    ensures exact { result ≡ coef_between more.now less.now level }
    ensures small { unsigned_abs result ≤ 2 ^ 60 }
{
    coef(level, more) - coef(level, less)
}

/// The constant of the difference of two sums, less a number.
fn constant_between(values: &[i64], more: &[Term], less: &[Term], by: i64) -> i64
    requires values { All (IsAtMost (2 ^ 20)) values.now }
    requires more { length more.now ≤ 2 ^ 20 }
    requires less { length less.now ≤ 2 ^ 20 }
    requires by { unsigned_abs by ≤ 1 }
    ensures exact { result ≡ constant_between values.now more.now less.now by }
    ensures small { unsigned_abs result ≤ 2 ^ 60 }
{
    constant(values, more) - constant(values, less) - by
}

/// The coefficients of so many levels in the difference of two sums.
#[tactic(auto, using(crate::proofs::ValuesFit::coefs_more, crate::proofs::ValuesFit::coefs_end, crate::proofs::ValuesFit::small_more))]
fn coefs(alloc: Global, levels: u32, more: &[Term], less: &[Term]) -> Result<List<i64>, AllocError>
    requires more { length more.now ≤ 2 ^ 20 }
    requires less { length less.now ≤ 2 ^ 20 }
    ensures exact { IfOk result (λ cs.
        cs ≡ map (coef_between more.now less.now) (levels_from levels 1)) }
    ensures count { IfOk result (λ cs. length cs ≡ levels) }
    ensures small { IfOk result (λ cs. All (IsAtMost (2 ^ 60)) cs) }
{
    let mut coefs = List::new(alloc);
    for l in 0..levels {
        let coef = coef_between(l + 1, more, less);
        coefs.push(coef)?;
    }
    Ok(coefs)
}

/// How far the one sum is above the other, less a number.
#[tactic(auto, using(crate::proofs::ValuesFit::form_small))]
fn above(
    alloc: Global,
    values: &[i64],
    more: &[Term],
    less: &[Term],
    by: i64,
) -> Result<Aff, AllocError>
    requires values { All (IsAtMost (2 ^ 20)) values.now }
    requires more { length more.now ≤ 2 ^ 20 }
    requires less { length less.now ≤ 2 ^ 20 }
    requires more_fit { IsTrue (list_all (term_fits Split (length values.now)) more.now) }
    requires less_fit { IsTrue (list_all (term_fits Split (length values.now)) less.now) }
    requires by { unsigned_abs by ≤ 1 }
    ensures { IfOk result (λ f. f ≡ above values.now more.now less.now by) }
{
    let levels = levels_in(more, less);
    let coefs = coefs(alloc, levels, more, less)?;
    let constant = constant_between(values, more, less, by);
    Ok(Aff { coefs, constant })
}

/// The form that is at least 0 exactly where a split's condition holds, with a coefficient for each
/// level up to the greatest that the condition names. The values are those of the parameters.
#[tactic(auto, using(crate::proofs::ValuesFit::few_left, crate::proofs::ValuesFit::few_right, crate::proofs::ValuesFit::left_fit, crate::proofs::ValuesFit::right_fit))]
pub fn condition_of(alloc: Global, cond: &Cond, values: &[i64]) -> Result<Aff, AllocError>
    requires fits { IsTrue (condition_fits Split (length values.now) cond.now) }
    requires values { All (IsAtMost (2 ^ 20)) values.now }
    ensures { IfOk result (λ f. f ≡ condition values.now cond.now) }
{
    let left = cond.left.as_slice();
    let right = cond.right.as_slice();
    match cond.relation {
        Relation::Less => above(alloc, values, right, left, 1),
        Relation::AtMost => above(alloc, values, right, left, 0),
        Relation::More => above(alloc, values, left, right, 1),
        Relation::AtLeast => above(alloc, values, left, right, 0),
    }
}
