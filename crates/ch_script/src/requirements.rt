//! A condition between parameters as an affine form of their values.
ghost use Rattle.std.specs.Prelude.{◌≡◌, ◌≤◌, ◌^◌, ℤ, pos, length};
ghost use Rattle.std.specs.Prelude.{map, unsigned_abs, IfOk, IsTrue};
ghost use Rattle.std.specs.List.{All, list_all, range_with_len};
ghost use Rattle.ch_affine.specs.Affine.{IsAtMost};
ghost use Rattle.ch_script.specs.Recipes.{condition_fits};
ghost use Rattle.ch_script.specs.Requirements.{all_requirements, excess, number_between};
ghost use Rattle.ch_script.specs.Requirements.{number_of, requirement, requirements};
ghost use Rattle.ch_script.specs.Requirements.{weight_between, weight_of};
ghost use Rattle.ch_script.specs.Values.{signed, total};
ghost use Rattle.ch_script.specs.declared.recipe.Purpose.TheVariants.{Require};

use crate::recipe::{Cond, Of, Recipe, Relation, Term};
use ch_affine::{Aff, List};
use std::alloc::{AllocError, Global};

fn signed(negative: bool, size: u32) -> i64
    ensures exact { result ≡ signed negative (pos size) }
    ensures small { unsigned_abs result ≤ 2 ^ 32 }
{
    if negative {
        -i64::from(size)
    } else {
        i64::from(size)
    }
}

/// What a term adds to the coefficient of a parameter.
fn weight_of(param: u32, term: &Term) -> i64
    ensures exact { result ≡ weight_of param term.now }
    ensures small { unsigned_abs result ≤ 2 ^ 32 }
{
    match term.of {
        Of::Param(k) => {
            if k != param {
                0
            } else {
                signed(term.negative, term.factor)
            }
        }
        _ => 0,
    }
}

/// What a term adds to the constant.
fn number_of(term: &Term) -> i64
    ensures exact { result ≡ number_of term.now }
    ensures small { unsigned_abs result ≤ 2 ^ 32 }
{
    match term.of {
        Of::One => signed(term.negative, term.factor),
        _ => 0,
    }
}

/// The coefficient of a parameter in a sum.
#[tactic(auto, using(crate::proofs::ValuesFit::total_more))]
fn weight(param: u32, terms: &[Term]) -> i64
    requires few { length terms.now ≤ 2 ^ 20 }
    ensures exact { result ≡ total (weight_of param) terms.now }
    ensures small { unsigned_abs result ≤ 2 ^ 52 }
{
    let mut sum: i64 = 0;
    for term in terms {
        sum += weight_of(param, term);
    }
    sum
}

/// The constant of a sum.
#[tactic(auto, using(crate::proofs::ValuesFit::total_more))]
fn number(terms: &[Term]) -> i64
    requires few { length terms.now ≤ 2 ^ 20 }
    ensures exact { result ≡ total number_of terms.now }
    ensures small { unsigned_abs result ≤ 2 ^ 52 }
{
    let mut sum: i64 = 0;
    for term in terms {
        sum += number_of(term);
    }
    sum
}

/// The coefficient of a parameter in the difference of two sums.
fn weight_between(param: u32, more: &[Term], less: &[Term]) -> i64
    requires more { length more.now ≤ 2 ^ 20 }
    requires less { length less.now ≤ 2 ^ 20 }
    ensures exact { result ≡ weight_between more.now less.now param }
    ensures small { unsigned_abs result ≤ 2 ^ 60 }
{
    weight(param, more) - weight(param, less)
}

/// The constant of the difference of two sums, less a number.
fn number_between(more: &[Term], less: &[Term], by: i64) -> i64
    requires more { length more.now ≤ 2 ^ 20 }
    requires less { length less.now ≤ 2 ^ 20 }
    requires by { unsigned_abs by ≤ 1 }
    ensures exact { result ≡ number_between more.now less.now by }
    ensures small { unsigned_abs result ≤ 2 ^ 60 }
{
    number(more) - number(less) - by
}

/// The coefficients of so many parameters in the difference of two sums.
#[tactic(auto, using(crate::proofs::RequirementsFit::weights_more, crate::proofs::RequirementsFit::weights_end, crate::proofs::ValuesFit::small_more))]
fn weights(
    alloc: Global,
    params: u32,
    more: &[Term],
    less: &[Term],
) -> Result<List<i64>, AllocError>
    requires more { length more.now ≤ 2 ^ 20 }
    requires less { length less.now ≤ 2 ^ 20 }
    ensures exact { IfOk result (λ cs.
        cs ≡ map (weight_between more.now less.now) (range_with_len 0 params)) }
    ensures count { IfOk result (λ cs. length cs ≡ params) }
    ensures small { IfOk result (λ cs. All (IsAtMost (2 ^ 60)) cs) }
{
    let mut weights = List::new(alloc);
    for k in 0..params {
        let weight = weight_between(k, more, less);
        weights.push(weight)?;
    }
    Ok(weights)
}

/// How far the one sum is above the other, less a number.
#[tactic(auto, using(crate::proofs::RequirementsFit::excess_small))]
fn excess(
    alloc: Global,
    params: u32,
    more: &[Term],
    less: &[Term],
    by: i64,
) -> Result<Aff, AllocError>
    requires params { params ≤ 6 }
    requires more { length more.now ≤ 2 ^ 20 }
    requires less { length less.now ≤ 2 ^ 20 }
    requires by { unsigned_abs by ≤ 1 }
    ensures { IfOk result (λ f. f ≡ excess params more.now less.now by) }
{
    let coefs = weights(alloc, params, more, less)?;
    let constant = number_between(more, less, by);
    Ok(Aff { coefs, constant })
}

/// The form over the values of so many parameters that is at least 0 exactly where a condition
/// between them holds.
#[tactic(auto, using(crate::proofs::RequirementsFit::few_left, crate::proofs::RequirementsFit::few_right))]
pub fn requirement_of(alloc: Global, cond: &Cond, params: u32) -> Result<Aff, AllocError>
    requires params { params ≤ 6 }
    requires fits { IsTrue (condition_fits Require params cond.now) }
    ensures { IfOk result (λ f. f ≡ requirement params cond.now) }
{
    let left = cond.left.as_slice();
    let right = cond.right.as_slice();
    match cond.relation {
        Relation::Less => excess(alloc, params, right, left, 1),
        Relation::AtMost => excess(alloc, params, right, left, 0),
        Relation::More => excess(alloc, params, left, right, 1),
        Relation::AtLeast => excess(alloc, params, left, right, 0),
    }
}

/// The forms of conditions between so many parameters, each over their values.
#[tactic(auto, using(crate::proofs::RequirementsFit::requirement_long))]
pub fn requirements_of(
    alloc: Global,
    conditions: &[Cond],
    params: u32,
) -> Result<List<Aff>, AllocError>
    requires params { params ≤ 6 }
    requires fit { IsTrue (list_all (condition_fits Require params) conditions.now) }
    ensures exact { IfOk result (λ rows. rows ≡ all_requirements params conditions.now) }
    ensures long { IfOk result (λ rows. All (λ row. length row.coefs ≡ params) rows) }
{
    let mut rows = List::with_capacity(alloc, conditions.len())?;
    for condition in conditions {
        let row = requirement_of(alloc, condition, params)?;
        rows.push(row)?;
    }
    Ok(rows)
}

impl Recipe {
    /// The forms of the conditions between the parameters, each over the parameters' values.
    #[tactic(auto, using(crate::proofs::RecipeFacts::few_params, crate::proofs::RecipeFacts::conditions_fit))]
    pub fn requirements(&self, alloc: Global) -> Result<List<Aff>, AllocError>
        ensures { IfOk result (λ rows. rows ≡ requirements self.now) }
    {
        self.known();
        requirements_of(alloc, self.conditions.as_slice(), self.params.len() as u32)
    }
}
