//! Whether two timed lists have the same meaning where sums may be made in any order.

ghost use Rattle.std.specs.Prelude.{◌≡◌, ◌↔◌, ℕ, ℤ, IfOk, IsTrue, List};
ghost use Rattle.ch_reduce.specs.Relaxed.{IsRelaxed, add_to_one, free_conflict};
ghost use Rattle.ch_timed.specs.Do.{Store, done};
ghost use Rattle.ch_timed.specs.Flat.{StaysInside, done_flat};
ghost use Rattle.ch_timed.specs.Timed.{step};

use crate::pairs::bodies_add_to_one;
use ch_order::{KeepOrder, conflicts, same_meaning_by};
use ch_timed::{Element, Timed};
use std::alloc::{AllocError, Global};

/// Whether both elements add to cells of one array.
fn add_to_one(a: &Element, b: &Element) -> bool
    ensures { result ≡ add_to_one (step a.now) (step b.now) }
{
    bodies_add_to_one(&a.body, &b.body)
}

/// The rule that two steps keep their order where they access one cell and one of them writes it,
/// unless both add to cells of one array.
#[derive(Clone, Copy, Debug)]
pub struct FreeConflicts;

impl KeepOrder for FreeConflicts {
    ghost conflict = { free_conflict };

    fn must_keep(a: &Element, b: &Element) -> bool {
        !add_to_one(a, b) && conflicts(a, b)
    }
}

/// Whether two timed lists have the same steps, each once, and no two of them in free conflict
/// stand the other way round.
///
/// Then both do the same to every store, and to all flat arrays that have each cell which they
/// access. `Err` where memory runs out. The number of calls of `Timed::after` is at most about the
/// third power of the lists' length.
pub fn same_sum<A: Timed, B: Timed>(alloc: Global, old: &A, new: &B) -> Result<bool, AllocError>
    ensures relaxed { IfOk result (λ t. IsTrue t ↔ IsRelaxed (A.list old.now) (B.list new.now)) }
    ensures store { IfOk result (λ t. IsTrue t → (store : Store)
        → done (A.list old.now) store ≡ done (B.list new.now) store) }
    ensures flat { IfOk result (λ t. IsTrue t
        → (extents : List (List ℕ)) → StaysInside extents (A.list old.now) → (cells : List ℤ)
        → done_flat extents (A.list old.now) cells ≡ done_flat extents (B.list new.now) cells) }
{
    same_meaning_by::<A, B, FreeConflicts>(alloc, old, new)
}
