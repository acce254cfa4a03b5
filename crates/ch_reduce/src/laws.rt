//! Laws of the definitions, each carried by a function without arguments that does nothing.

ghost use Rattle.std.specs.Prelude.{◌≡◌, ℕ, ℤ, ◌++◌, ◌∷◌, List, None};
ghost use Rattle.ch_depends.specs.Depends.{pair_of};
ghost use Rattle.ch_depends.specs.Free.{pair_of_elements, reversed_but};
ghost use Rattle.ch_depends.specs.declared.answers.PiecePair.{PiecePair};
ghost use Rattle.ch_order.specs.Legal.{IsChain, IsLegal, last_list};
ghost use Rattle.ch_reduce.specs.FreePairs.{AreFreePairs};
ghost use Rattle.ch_reduce.specs.Relaxed.{IsRelaxed, free_conflict, relaxed_reversed};
ghost use Rattle.ch_timed.specs.declared.element.Element.{Element};
ghost use Rattle.ch_timed.specs.Do.{Store, done, execute};
ghost use Rattle.ch_timed.specs.Flat.{StaysInside, done_flat};
ghost use Rattle.ch_timed.specs.Order.{do_all};
ghost use Rattle.ch_timed.specs.Timed.{Step};

/// A list of the same steps, each once, that has no pair in free conflict the other way round does
/// the same to every store and to all flat arrays that have each cell which the other list
/// accesses. Each legal list is such a list.
pub fn relaxed_does_same()
    ensures store { (old new : List Element) → IsRelaxed old new
        → (store : Store) → done old store ≡ done new store }
    ensures inside { (old new : List Element) → IsRelaxed old new
        → (extents : List (List ℕ)) → StaysInside extents old → StaysInside extents new }
    ensures flat { (old new : List Element) → IsRelaxed old new
        → (extents : List (List ℕ)) → StaysInside extents old
        → (cells : List ℤ) → done_flat extents old cells ≡ done_flat extents new cells }
    ensures legal { (old new : List Element) → IsLegal old new → IsRelaxed old new }
{}

/// The same of any number of lists, each of which may stand in the place of the one before it.
pub fn relaxed_steps_do_same()
    ensures store { (first : List Element) (later : List (List Element))
        → IsChain IsRelaxed first later
        → (store : Store) → done first store ≡ done (last_list first later) store }
    ensures inside { (first : List Element) (later : List (List Element))
        → IsChain IsRelaxed first later
        → (extents : List (List ℕ)) → StaysInside extents first
        → StaysInside extents (last_list first later) }
    ensures flat { (first : List Element) (later : List (List Element))
        → IsChain IsRelaxed first later
        → (extents : List (List ℕ)) → StaysInside extents first
        → (cells : List ℤ)
        → done_flat extents first cells ≡ done_flat extents (last_list first later) cells }
{}

/// Two steps that are not in free conflict may change places where they stand side by side.
pub fn sums_change_places()
    ensures { (front back : List Step) (a b : Step) → free_conflict a b ≡ None
        → (store : Store) → do_all execute (front ++ a ∷ b ∷ back) store
        ≡ do_all execute (front ++ b ∷ a ∷ back) store }
{}

/// Where free pairs are left out, the least reversed pair is the least one in free conflict, if
/// they are the pairs of pieces that accumulate into one array.
pub fn free_pairs_tell_relaxed()
    ensures { (old new : List Element) (free : List PiecePair) → AreFreePairs old free
        → pair_of_elements (reversed_but old new free) ≡ pair_of (relaxed_reversed old new) }
{}
