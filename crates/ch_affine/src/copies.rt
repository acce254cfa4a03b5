//! Deep copies: values of their own that contracts see as the same.

ghost use Rattle.std.specs.Prelude.{◌≡◌, IfOk};

use crate::aff::Aff;
use crate::list::List;
use crate::system::System;
use std::alloc::{AllocError, Global};

/// Forms of their own with the same numbers.
pub fn copied_forms(alloc: Global, forms: &[Aff]) -> Result<List<Aff>, AllocError>
    ensures { IfOk result (λ copy. copy ≡ forms.now) }
{
    let mut copy = List::with_capacity(alloc, forms.len())?;
    for form in forms {
        copy.push(form.copied(alloc)?)?;
    }
    Ok(copy)
}

impl<T: Copy> List<T> {
    /// A list of its own with the same elements.
    pub fn copied(&self, alloc: Global) -> Result<List<T>, AllocError>
        ensures { IfOk result (λ copy. copy ≡ self.now) }
    {
        List::from_slice(alloc, self.as_slice())
    }
}

impl System {
    /// A system of its own with the same rows and ranges.
    pub fn copied(&self, alloc: Global) -> Result<System, AllocError>
        ensures { IfOk result (λ copy. copy ≡ self.now) }
    {
        Ok(System {
            vars: self.vars,
            rows: copied_forms(alloc, self.rows.as_slice())?,
            boxes: self.boxes.copied(alloc)?,
        })
    }
}
