//! Whether two timed lists have the same meaning. The lists are walked from vector to vector and
//! never stored; the number of calls of `Timed::after` is at most about the third power of their
//! length.

ghost use Rattle.std.specs.Prelude.{◌≡◌, ◌↔◌, ◌∷◌, [], ℕ, ℤ, IfOk};
ghost use Rattle.std.specs.Prelude.{IsTrue, List, MatchOption, is_some};
ghost use Rattle.ch_order.specs.Legal.{AreAmong, IsLegal, IsLegalBy, steps};
ghost use Rattle.ch_order.specs.Walk.{rest};
ghost use Rattle.ch_timed.specs.Do.{Store, done};
ghost use Rattle.ch_timed.specs.Flat.{StaysInside, done_flat};
ghost use Rattle.ch_timed.specs.Members.{In};
ghost use Rattle.ch_timed.specs.Order as order;
ghost use Rattle.ch_timed.specs.Order.{is_before, overtaken, overtakes};
ghost use Rattle.ch_timed.specs.Timed.{is_well_formed, same_step, step};

use crate::bodies::same_body;
use crate::numbers::same_identity;
use crate::rule::{AllConflicts, KeepOrder};
use ch_affine::List;
use ch_timed::{Element, Timed};
use std::alloc::{AllocError, Global};

/// Whether both have one identity and one body.
fn same_step(a: &Element, b: &Element) -> bool
    ensures { IsTrue result ↔ (step a.now ≡ step b.now) }
{
    same_identity(&a.identity, &b.identity) && same_body(&a.body, &b.body)
}

/// The vector, without the rest of the element.
fn into_vector(element: Element) -> List<i64>
    ensures { result ≡ element.vector }
{
    let Element { vector, .. } = element;
    vector
}

/// The first element of what is left of a list after a vector, or `None` where nothing is left.
fn next<T: Timed>(alloc: Global, list: &T, at: &[i64]) -> Result<Option<Element>, AllocError>
    requires { IsTrue (is_well_formed (T.list list.now)) }
    ensures { IfOk result (λ r. MatchOption r
        (rest at.now (T.list list.now) ≡ [])
        (λ e. rest at.now (T.list list.now) ≡ e ∷ rest e.vector (T.list list.now))) }
{
    list.after(alloc, at)
}

/// Whether the list has the step of an element.
fn has_step<T: Timed>(alloc: Global, list: &T, element: &Element) -> Result<bool, AllocError>
    requires { IsTrue (is_well_formed (T.list list.now)) }
    ensures { IfOk result (λ t. IsTrue t ↔ In (step element.now) (steps (T.list list.now))) }
{
    let mut at = List::new(alloc);
    while let Some(found) = next(alloc, list, at.as_slice())? {
        if same_step(&found, element) {
            return Ok(true);
        }
        at = into_vector(found);
    }
    Ok(false)
}

/// Whether each step of the first list is one of the second.
fn has_steps<A: Timed, B: Timed>(alloc: Global, from: &A, into: &B) -> Result<bool, AllocError>
    requires from { IsTrue (is_well_formed (A.list from.now)) }
    requires into { IsTrue (is_well_formed (B.list into.now)) }
    ensures { IfOk result (λ t. IsTrue t ↔ AreAmong (A.list from.now) (B.list into.now)) }
{
    let mut at = List::new(alloc);
    while let Some(found) = next(alloc, from, at.as_slice())? {
        if !has_step(alloc, into, &found)? {
            return Ok(false);
        }
        at = into_vector(found);
    }
    Ok(true)
}

/// Whether the step of b stands before that of a in the list.
fn stands_before<T: Timed>(
    alloc: Global,
    list: &T,
    b: &Element,
    a: &Element,
) -> Result<bool, AllocError>
    requires { IsTrue (is_well_formed (T.list list.now)) }
    ensures { IfOk result (λ t. t
        ≡ is_before same_step (step b.now) (step a.now) (steps (T.list list.now))) }
{
    let mut at = List::new(alloc);
    while let Some(found) = next(alloc, list, at.as_slice())? {
        if same_identity(&found.identity, &a.identity) {
            return Ok(false);
        }
        if same_identity(&found.identity, &b.identity) {
            return Ok(true);
        }
        at = into_vector(found);
    }
    Ok(false)
}

/// Whether the two must keep their order and b stands before a in the list.
fn overtakes<T: Timed, C: KeepOrder>(
    alloc: Global,
    list: &T,
    b: &Element,
    a: &Element,
) -> Result<bool, AllocError>
    requires { IsTrue (is_well_formed (T.list list.now)) }
    ensures { IfOk result (λ t. t ≡ is_some (overtaken
        (is_before same_step (step b.now) (step a.now) (steps (T.list list.now)))
        (step a.now) (step b.now) (C.conflict (step a.now) (step b.now)))) }
{
    if !C::must_keep(a, b) {
        return Ok(false);
    }
    stands_before(alloc, list, b, a)
}

/// Whether an element of the old list that comes after a has overtaken it in the new list.
fn is_overtaken<A: Timed, B: Timed, C: KeepOrder>(
    alloc: Global,
    a: &Element,
    old: &A,
    new: &B,
) -> Result<bool, AllocError>
    requires old { IsTrue (is_well_formed (A.list old.now)) }
    requires new { IsTrue (is_well_formed (B.list new.now)) }
    ensures { IfOk result (λ t. t ≡ is_some (overtakes same_step C.conflict
        (step a.now) (steps (rest a.now.vector (A.list old.now))) (steps (B.list new.now)))) }
{
    let mut at = List::from_slice(alloc, a.vector.as_slice())?;
    while let Some(b) = next(alloc, old, at.as_slice())? {
        if overtakes::<B, C>(alloc, new, &b, a)? {
            return Ok(true);
        }
        at = into_vector(b);
    }
    Ok(false)
}

/// Whether a pair that must keep its order is the other way round in the new list.
fn has_reversed<A: Timed, B: Timed, C: KeepOrder>(
    alloc: Global,
    old: &A,
    new: &B,
) -> Result<bool, AllocError>
    requires old { IsTrue (is_well_formed (A.list old.now)) }
    requires new { IsTrue (is_well_formed (B.list new.now)) }
    ensures { IfOk result (λ t. t ≡ is_some (order.reversed same_step C.conflict
        (steps (A.list old.now)) (steps (B.list new.now)))) }
{
    let mut at = List::new(alloc);
    while let Some(a) = next(alloc, old, at.as_slice())? {
        if is_overtaken::<A, B, C>(alloc, &a, old, new)? {
            return Ok(true);
        }
        at = into_vector(a);
    }
    Ok(false)
}

/// Whether two timed lists have the same steps, each once, and no two of them that must keep their
/// order by the given rule stand the other way round. `Err` where memory runs out.
pub fn same_meaning_by<A: Timed, B: Timed, C: KeepOrder>(
    alloc: Global,
    old: &A,
    new: &B,
) -> Result<bool, AllocError>
    ensures { IfOk result (λ t. IsTrue t
        ↔ IsLegalBy C.conflict (A.list old.now) (B.list new.now)) }
{
    old.known();
    new.known();
    if !has_steps(alloc, old, new)? {
        return Ok(false);
    }
    if !has_steps(alloc, new, old)? {
        return Ok(false);
    }
    let reversed = has_reversed::<A, B, C>(alloc, old, new)?;
    Ok(!reversed)
}

/// Whether two timed lists have the same steps, each once, and no two of them that conflict stand
/// the other way round.
///
/// Then both do the same to every store, and to all flat arrays that have each cell which they
/// access. `Err` where memory runs out. The number of calls of `Timed::after` is at most about the
/// third power of the lists' length.
pub fn same_meaning<A: Timed, B: Timed>(alloc: Global, old: &A, new: &B) -> Result<bool, AllocError>
    ensures legal { IfOk result (λ t. IsTrue t ↔ IsLegal (A.list old.now) (B.list new.now)) }
    ensures store { IfOk result (λ t. IsTrue t → (store : Store)
        → done (A.list old.now) store ≡ done (B.list new.now) store) }
    ensures flat { IfOk result (λ t. IsTrue t
        → (extents : List (List ℕ)) → StaysInside extents (A.list old.now) → (cells : List ℤ)
        → done_flat extents (A.list old.now) cells ≡ done_flat extents (B.list new.now) cells) }
{
    same_meaning_by::<A, B, AllConflicts>(alloc, old, new)
}
