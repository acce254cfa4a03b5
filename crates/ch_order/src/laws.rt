//! Laws of the definitions, each carried by a function without arguments that does nothing.

ghost use Rattle.std.specs.Prelude.{◌≡◌, ◌≢◌, ◌≤◌, ◌↔◌, [], Some, ℕ, ℤ, ◌++◌};
ghost use Rattle.std.specs.Prelude.{◌∷◌, IsTrue, List, None, length, take};
ghost use Rattle.ch_nest.specs.Arrays.{extents_of, total, within_array};
ghost use Rattle.ch_nest.specs.LoopNest.{LoopNest};
ghost use Rattle.ch_nest.specs.Run.{run};
ghost use Rattle.ch_nest.specs.Sound.{items_inside};
ghost use Rattle.ch_order.specs.Agreement.{KeepsArrays};
ghost use Rattle.ch_order.specs.Legal.{AreAmong, IsLegal, IsLegalChain, last_list};
ghost use Rattle.ch_order.specs.Reversed.{IsLeastReversed, IsReversed};
ghost use Rattle.ch_timed.specs.Conflict.{conflict, reversed};
ghost use Rattle.ch_timed.specs.declared.element.Cell.{Cell};
ghost use Rattle.ch_timed.specs.declared.element.Element.{Element};
ghost use Rattle.ch_timed.specs.Do.{Store, done, execute};
ghost use Rattle.ch_timed.specs.Flat.{StaysInside, done_flat, look, with_buffers};
ghost use Rattle.ch_timed.specs.Order.{Pair, do_all};
ghost use Rattle.ch_timed.specs.Start.{start};
ghost use Rattle.ch_timed.specs.Timed.{Step, is_well_formed, step};

/// A list that may stand in the place of another one does the same to every store. It accesses the
/// same cells, and where flat arrays have all of them it does the same to these.
pub fn legal_does_same()
    ensures store { (old new : List Element) → IsLegal old new
        → (store : Store) → done old store ≡ done new store }
    ensures inside { (old new : List Element) → IsLegal old new
        → (extents : List (List ℕ)) → StaysInside extents old → StaysInside extents new }
    ensures flat { (old new : List Element) → IsLegal old new
        → (extents : List (List ℕ)) → StaysInside extents old
        → (cells : List ℤ) → done_flat extents old cells ≡ done_flat extents new cells }
{}

/// Of any number of lists each of which is legal in the place of the one before it, the last one
/// does what the first one does, to every store and to flat arrays that have each cell which the
/// first one accesses.
pub fn legal_steps_do_same()
    ensures store { (first : List Element) (later : List (List Element)) → IsLegalChain first later
        → (store : Store) → done first store ≡ done (last_list first later) store }
    ensures inside { (first : List Element) (later : List (List Element)) → IsLegalChain first later
        → (extents : List (List ℕ)) → StaysInside extents first
        → StaysInside extents (last_list first later) }
    ensures flat { (first : List Element) (later : List (List Element)) → IsLegalChain first later
        → (extents : List (List ℕ)) → StaysInside extents first
        → (cells : List ℤ)
        → done_flat extents first cells ≡ done_flat extents (last_list first later) cells }
{}

/// What leaves the same in a program's arrays (`KeepsArrays`): each list itself; a list that does
/// to every store what the other one does and accesses no other cells, as a legal one; a list that
/// differs in one buffer alone, behind the arrays and the buffers so far, as a copy; and what keeps
/// the arrays in the place of a list that keeps them.
pub fn keeping_arrays_composes()
    ensures itself { (arrays buffers : List (List ℕ)) (list : List Element)
        → KeepsArrays arrays list buffers list buffers }
    ensures same { (arrays buffers : List (List ℕ)) (old new : List Element)
        → ((store : Store) → done old store ≡ done new store)
        → ((extents : List (List ℕ)) → StaysInside extents old → StaysInside extents new)
        → KeepsArrays arrays old buffers new buffers }
    ensures legal { (arrays buffers : List (List ℕ)) (old new : List Element)
        → IsLegal old new → KeepsArrays arrays old buffers new buffers }
    ensures copied { (arrays buffers : List (List ℕ)) (extents : List ℕ)
        (old new : List Element) (buffer : ℕ) → length arrays ≤ buffer
        → ((store : Store) (c : Cell) → c.array ≢ buffer
        → done old store c ≡ done new store c)
        → (StaysInside (arrays ++ buffers) old
        → StaysInside ((arrays ++ buffers) ++ extents ∷ []) new)
        → KeepsArrays arrays old buffers new (buffers ++ extents ∷ []) }
    ensures both { (arrays first_buffers mid_buffers last_buffers : List (List ℕ))
        (first mid last : List Element)
        → KeepsArrays arrays first first_buffers mid mid_buffers
        → KeepsArrays arrays mid mid_buffers last last_buffers
        → KeepsArrays arrays first first_buffers last last_buffers }
{}

/// A list that keeps what another one leaves in the arrays, with buffers behind the other's, leaves
/// the same flat arrays, whatever its buffers hold. So, for a nest none of whose subscripts leaves
/// its array, a list that keeps what the nest's own list leaves runs the nest, also where its
/// buffers start as 0.
pub fn kept_arrays_are_equal()
    ensures flat { (arrays buffers more : List (List ℕ)) (old new : List Element)
        → KeepsArrays arrays old buffers new (buffers ++ more)
        → StaysInside (arrays ++ buffers) old
        → (cells rest : List ℤ)
        → length cells ≡ total (arrays ++ buffers) → length rest ≡ total more
        → take (total arrays) (done_flat (arrays ++ buffers) old cells)
        ≡ take (total arrays) (done_flat (arrays ++ (buffers ++ more)) new (cells ++ rest)) }
    ensures nest { (nest : LoopNest)
        → IsTrue (items_inside (extents_of nest.arrays) nest.items [])
        → (new : List Element) (buffers : List (List ℕ))
        → KeepsArrays (extents_of nest.arrays) (start nest) [] new buffers
        → (cells rest : List ℤ)
        → length cells ≡ total (extents_of nest.arrays) → length rest ≡ total buffers
        → run nest cells ≡ take (length cells)
        (done_flat (extents_of nest.arrays ++ buffers) new (cells ++ rest)) }
    ensures empty_buffers { (nest : LoopNest)
        → IsTrue (items_inside (extents_of nest.arrays) nest.items [])
        → (new : List Element) (buffers : List (List ℕ))
        → KeepsArrays (extents_of nest.arrays) (start nest) [] new buffers
        → (cells : List ℤ) → length cells ≡ total (extents_of nest.arrays)
        → run nest cells ≡ take (length cells)
        (done_flat (extents_of nest.arrays ++ buffers) new (with_buffers buffers cells)) }
{}

/// Two steps without a conflict may change places where they stand side by side.
pub fn neighbours_change_places()
    ensures { (front back : List Step) (a b : Step) → conflict a b ≡ None → (store : Store)
        → do_all execute (front ++ a ∷ b ∷ back) store
        ≡ do_all execute (front ++ b ∷ a ∷ back) store }
{}

/// Flat arrays hold what the store holds, cell by cell, also after the elements of a list were
/// executed in both.
pub fn arrays_hold_the_store()
    ensures { (extents : List (List ℕ)) (list : List Element) (cells : List ℤ)
        → StaysInside extents list → length cells ≡ total extents
        → (c : Cell) → IsTrue (within_array extents c.array c.subs)
        → look extents (done_flat extents list cells) c ≡ done list (look extents cells) c }
{}

/// Of two well formed lists, the second of which has the steps of the first, `reversed` finds a
/// pair exactly where two conflicting elements stand the other way round, and then the least of
/// these pairs: the one whose first element comes first in the old list, and of several of these
/// the one whose second element does.
pub fn reversed_is_least()
    ensures none { (old new : List Element) → IsTrue (is_well_formed old)
        → IsTrue (is_well_formed new) → AreAmong old new
        → (reversed old new ≡ None) ↔ ((a b : Element) (c : Cell) → IsReversed old new a b c → ⊥) }
    ensures found { (old new : List Element) → IsTrue (is_well_formed old)
        → IsTrue (is_well_formed new) → AreAmong old new
        → (p : Pair Step Cell) → reversed old new ≡ Some p
        → (a b : Element) × (IsLeastReversed old new a b p.cell
        × (p ≡ record { first = step a; second = step b; cell = p.cell })) }
    ensures least { (old new : List Element) → IsTrue (is_well_formed old)
        → IsTrue (is_well_formed new) → AreAmong old new
        → (a b : Element) (c : Cell) → IsLeastReversed old new a b c
        → reversed old new ≡ Some (record { first = step a; second = step b; cell = c }) }
{}

/// A nest none of whose subscripts leaves its array does to its arrays what each list does that is
/// legal in the place of its own list, also after any number of legal steps.
pub fn legal_list_runs_the_nest()
    ensures one { (nest : LoopNest)
        → IsTrue (items_inside (extents_of nest.arrays) nest.items [])
        → (new : List Element) → IsLegal (start nest) new → (cells : List ℤ)
        → run nest cells ≡ done_flat (extents_of nest.arrays) new cells }
    ensures many { (nest : LoopNest)
        → IsTrue (items_inside (extents_of nest.arrays) nest.items [])
        → (later : List (List Element)) → IsLegalChain (start nest) later → (cells : List ℤ)
        → run nest cells
        ≡ done_flat (extents_of nest.arrays) (last_list (start nest) later) cells }
{}
