//! Forms of one variable.

ghost use Rattle.std.specs.Prelude.{◌≡◌, ◌+◌, ◌<◌, ◌++◌, IfOk, OnOk};
ghost use Rattle.ch_space.specs.Built.{unit};

pub use crate::substitute::push_zeros;
use ch_affine::{Aff, List};
use std::alloc::{AllocError, Global};

/// Adds the coefficient 1 behind so many zeros and before others.
pub fn push_unit(numbers: &mut List<i64>, before: usize, after: usize) -> Result<(), AllocError>
    ensures { OnOk result (numbers.new ≡ numbers.old ++ (unit before after).coefs) }
{
    push_zeros(numbers, before)?;
    numbers.push(1)?;
    push_zeros(numbers, after)
}

/// The form of one variable, which has so many before it and so many after it.
pub fn unit(alloc: Global, before: usize, after: usize) -> Result<Aff, AllocError>
    requires { before + after < 4096 }
    ensures { IfOk result (λ form. form ≡ unit before after) }
{
    let mut coefs = List::new(alloc);
    push_unit(&mut coefs, before, after)?;
    Ok(Aff { coefs, constant: 0 })
}
