//! Negatives of numbers and of forms.

ghost use Rattle.std.specs.Prelude.{◌≡◌, ◌^◌, IfOk};
ghost use Rattle.std.specs.List.{All};
ghost use Rattle.ch_affine.specs.Affine.{IsAtMost};
ghost use Rattle.ch_affine.specs.Negatives.{negative, negatives};

use crate::aff::Aff;
use crate::list::List;
use std::alloc::{AllocError, Global};

/// The negative of each number.
pub fn negatives(alloc: Global, numbers: &[i64]) -> Result<List<i64>, AllocError>
    requires { All (IsAtMost (2 ^ 60)) numbers.now }
    ensures { IfOk result (λ others. others ≡ negatives numbers.now) }
{
    let mut others = List::with_capacity(alloc, numbers.len())?;
    for number in numbers {
        others.push(-*number)?;
    }
    Ok(others)
}

impl Aff {
    /// The form whose value at each point is the negative of this one's.
    pub fn negative(&self, alloc: Global) -> Result<Aff, AllocError>
        ensures { IfOk result (λ form. form ≡ negative self.now) }
    {
        let coefs = negatives(alloc, self.coefs.as_slice())?;
        Ok(Aff {
            coefs,
            constant: -self.constant,
        })
    }
}
