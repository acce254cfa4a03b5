ghost use Rattle.std.specs.Prelude.{◌≡◌, ◌≤◌, ◌^◌, ◌+ℤ◌, length, IfOk};
ghost use Rattle.std.specs.Prelude.{IfSome, IsSome, IsTrue, ◌↔◌};
ghost use Rattle.std.specs.List.{All};
ghost use Rattle.ch_affine.specs.Affine.{IsAtMost, IsSmall, form, value, dot};

use crate::limits::{LARGEST_COEFFICIENT, MOST_VARIABLES};
use crate::list::List;
use crate::wide::{plus, times};
use std::alloc::{AllocError, Global};
use std::marker::Model;

/// An affine form: a constant plus, for each variable, a coefficient times the variable.
///
/// A form has at most 4,096 coefficients, and its numbers have magnitude at most 2^60, so that no
/// value at a point whose numbers have magnitude at most 2^54 leaves `i128`.
#[derive(Debug, Drop)]
pub struct Aff {
    pub coefs: List<i64>,
    pub constant: i64,
}

impl Model for Aff {
    ghost use Rattle.ch_affine.specs.Form.{Form};
    ghost use Rattle.ch_affine.specs.Affine.{IsSmall};

    ghost Value = { Form };

    ghost view = { λ a. record { coefs = a.coefs; constant = a.constant } };

    ghost invariant = { λ a. IsSmall (record { coefs = a.coefs; constant = a.constant }) };
}

impl Aff {
    /// The form of these parts, or None where there are too many or a number is too large.
    pub fn new(coefs: List<i64>, constant: i64) -> Option<Aff>
        ensures fits { IsSome result ↔ IsSmall (form coefs constant) }
        ensures value { IfSome result (λ a. a ≡ form coefs constant) }
    {
        let fits = coefs.len() <= MOST_VARIABLES as usize
            && all_small(coefs.as_slice())
            && is_small(constant);
        if !fits {
            return None;
        }
        Some(Aff { coefs, constant })
    }

    /// The exact value at a point, which has one number for each variable.
    pub fn value(&self, point: &[i64]) -> i128
        requires same { length point.now ≡ length self.now.coefs }
        requires small { All (IsAtMost (2 ^ 54)) point.now }
        ensures { result ≡ value self.now point.now }
    {
        weighed(self.constant, self.coefs.as_slice(), point)
    }

    /// A form of its own with the same numbers.
    pub fn copied(&self, alloc: Global) -> Result<Aff, AllocError>
        ensures { IfOk result (λ form. form ≡ self.now) }
    {
        let coefs = List::from_slice(alloc, self.coefs.as_slice())?;
        Ok(Aff {
            coefs,
            constant: self.constant,
        })
    }
}

fn weighed(constant: i64, coefs: &[i64], point: &[i64]) -> i128
    requires same { length point.now ≡ length coefs.now }
    requires few { length coefs.now ≤ 4096 }
    requires large { IsAtMost (2 ^ 60) constant }
    requires coefs_small { All (IsAtMost (2 ^ 60)) coefs.now }
    requires point_small { All (IsAtMost (2 ^ 54)) point.now }
    ensures { result ≡ constant +ℤ dot coefs.now point.now }
{
    let mut sum = i128::from(constant);
    for k in 0..coefs.len() {
        sum = plus(sum, times(coefs[k], point[k]));
    }
    sum
}

fn all_small(numbers: &[i64]) -> bool
    ensures { IsTrue result ↔ All (IsAtMost (2 ^ 60)) numbers.now }
{
    numbers.iter().all(|number| is_small(*number))
}

fn is_small(number: i64) -> bool
    ensures { IsTrue result ↔ IsAtMost (2 ^ 60) number }
{
    number.unsigned_abs() <= LARGEST_COEFFICIENT as u64
}
