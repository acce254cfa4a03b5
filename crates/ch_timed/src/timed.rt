ghost use Rattle.std.specs.Prelude.{◌≡◌, List, IfOk, IsTrue};
ghost use Rattle.ch_timed.specs.declared.element.Element.{Element};
ghost use Rattle.ch_timed.specs.Next.{next_after};
ghost use Rattle.ch_timed.specs.Timed.{is_well_formed};

use crate::element::Element;
use std::alloc::{AllocError, Global};

/// A value that stands for a timed list.
pub trait Timed {
    /// The list, in the order of its time vectors.
    ghost list: { Self → List Element };

    /// Tells a caller that the list is well formed.
    fn known(&self)
        ensures { IsTrue (is_well_formed (list self.now)) };

    /// The element with the least vector above the given one, the empty vector being below all;
    /// None exactly where there is none.
    fn after(&self, alloc: Global, vector: &[i64]) -> Result<Option<Element>, AllocError>
        ensures { IfOk result (λ r. r ≡ next_after vector.now (list self.now)) };
}
