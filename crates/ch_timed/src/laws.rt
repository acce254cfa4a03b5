//! Laws of the definitions, each carried by a function without arguments that does nothing.

ghost use Rattle.std.specs.Prelude.{◌≡◌, ◌≢◌, ◌↔◌, ◌++◌, ℕ, ℤ, IsTrue, List, [], length, map};
ghost use Rattle.ch_nest.specs.Arrays.{extents_of, total, within_array};
ghost use Rattle.ch_nest.specs.Sound.{items_inside};
ghost use Rattle.ch_nest.specs.LoopNest.{LoopNest};
ghost use Rattle.ch_nest.specs.Run.{run};
ghost use Rattle.ch_nest.specs.Shape.{is_nest};
ghost use Rattle.ch_timed.specs.declared.element.Cell.{Cell};
ghost use Rattle.ch_timed.specs.declared.element.Element.{Element};
ghost use Rattle.ch_timed.specs.Closed.{at_vector, closed_up, closed_vector};
ghost use Rattle.ch_timed.specs.Flat.{done_flat, place_of, StaysInside};
ghost use Rattle.ch_timed.specs.Members.{In, Pairwise};
ghost use Rattle.ch_timed.specs.Start.{start};
ghost use Rattle.ch_timed.specs.Timed.{in_order, is_well_formed, step, vectors_ascend};
ghost use Rattle.ch_timed.specs.Vectors.{comes_before};

/// A run of a nest executes the elements of its list, one after another.
pub fn start_is_run()
    ensures { (nest : LoopNest) (cells : List ℤ)
        → run nest cells ≡ done_flat (extents_of nest.arrays) (start nest) cells }
{}

/// Arrays behind those that a list accesses, as buffers are, take no cell away and move none, and
/// their cells stay as they are.
pub fn more_arrays_change_nothing()
    ensures inside { (extents more : List (List ℕ)) (list : List Element)
        → StaysInside extents list → StaysInside (extents ++ more) list }
    ensures places { (extents more : List (List ℕ)) (c : Cell)
        → IsTrue (within_array extents c.array c.subs)
        → place_of (extents ++ more) c ≡ place_of extents c }
    ensures done { (extents more : List (List ℕ)) (list : List Element) (cells rest : List ℤ)
        → StaysInside extents list → length cells ≡ total extents
        → done_flat (extents ++ more) list (cells ++ rest) ≡ done_flat extents list cells ++ rest }
{}

/// A list leaves as many cells as there were.
pub fn execution_keeps_length()
    ensures { (extents : List (List ℕ)) (list : List Element) (cells : List ℤ)
        → length (done_flat extents list cells) ≡ length cells }
{}

/// The list of a nest is in the order of its vectors.
pub fn start_in_order()
    ensures ascends { (nest : LoopNest) → IsTrue (vectors_ascend (start nest)) }
    ensures sorted { (nest : LoopNest) → in_order (start nest) ≡ start nest }
{}

/// The list of a nest is well formed: the labels of a nest number its statements, so no identity
/// stands twice in it.
pub fn start_well_formed()
    ensures { (nest : LoopNest) → IsTrue (is_nest nest) → IsTrue (is_well_formed (start nest)) }
{}

/// Where no subscript of a nest leaves its array, no element of its list accesses a cell that isn't
/// there.
pub fn start_stays_inside()
    ensures { (nest : LoopNest)
        → IsTrue (items_inside (extents_of nest.arrays) nest.items [])
        → StaysInside (extents_of nest.arrays) (start nest) }
{}

/// Putting a list in order keeps each of its elements. Where two of them have one vector the list
/// in order doesn't ascend, so it isn't well formed.
pub fn order_keeps_all()
    ensures members { (list : List Element) (e : Element) → In e (in_order list) ↔ In e list }
    ensures count { (list : List Element) → length (in_order list) ≡ length list }
    ensures ascends { (list : List Element) → IsTrue (vectors_ascend (in_order list))
        ↔ Pairwise (λ (e f : Element). e.vector ≢ f.vector) list }
{}

/// Closing up changes no identity and no body, and keeps which of two elements comes first. So the
/// elements of a list in order stay where they stand, the same steps are executed, and the list
/// stays well formed.
pub fn closing_keeps_order()
    ensures vectors { (list : List Element) (e f : Element) → In e list → In f list
        → comes_before (closed_vector list e) (closed_vector list f)
        ≡ comes_before e.vector f.vector }
    ensures places_stay { (list : List Element) → IsTrue (vectors_ascend list)
        → closed_up list ≡ map (λ e. at_vector e (closed_vector list e)) list }
    ensures steps { (list : List Element) → IsTrue (vectors_ascend list)
        → map step (closed_up list) ≡ map step list }
    ensures well_formed { (list : List Element) → IsTrue (is_well_formed list)
        → IsTrue (is_well_formed (closed_up list)) }
{}
