//! Laws of the definitions, each carried by a function without arguments that does nothing.

ghost use Rattle.std.specs.Prelude.{◌∷◌, [], ◌++◌, ℤ, ◌≡◌, ◌≢◌, ◌<◌, ℕ, IsTrue};
ghost use Rattle.std.specs.Prelude.{List, length, slice_index_or, take};
ghost use Rattle.ch_copied.specs.Copied.{buffer_extents, datacopied};
ghost use Rattle.ch_copied.specs.Copyable.{HasLoop, IsCopyable};
ghost use Rattle.ch_copied.specs.Uses.{IsExtent, Use, extents};
ghost use Rattle.ch_nest.specs.Arrays.{cells_in, total};
ghost use Rattle.ch_order.specs.Agreement.{KeepsArrays};
ghost use Rattle.ch_timed.specs.declared.element.Cell.{Cell};
ghost use Rattle.ch_timed.specs.declared.element.Element.{Element};
ghost use Rattle.ch_timed.specs.Do.{Store, done};
ghost use Rattle.ch_timed.specs.Flat.{StaysInside, done_flat};
ghost use Rattle.ch_timed.specs.Members.{In};
ghost use Rattle.ch_timed.specs.Timed.{is_well_formed};

/// A list whose loop works on a buffer is well formed, and it does what the list did before, to
/// every store, on every cell but those of the buffer. The buffer may hold anything before.
pub fn copy_keeps_meaning()
    ensures well_formed { (list : List Element) (s level array buffer dimensions : ℕ)
        → IsCopyable list array buffer dimensions → HasLoop list s level
        → IsTrue (is_well_formed (datacopied list s level array buffer)) }
    ensures same { (list : List Element) (s level array buffer dimensions : ℕ)
        → IsCopyable list array buffer dimensions → HasLoop list s level
        → (store : Store) (c : Cell) → c.array ≢ buffer
        → done list store c ≡ done (datacopied list s level array buffer) store c }
{}

/// The same on arrays, the buffer standing behind the arrays and the buffers so far: no access
/// leaves its array or buffer, so the list keeps the arrays, and of flat arrays all cells hold what
/// they held but those of the new buffer.
pub fn copy_keeps_arrays()
    ensures inside { (list : List Element) (s level array buffer dimensions : ℕ)
        → IsCopyable list array buffer dimensions → HasLoop list s level
        → (extents : List (List ℕ)) → buffer ≡ length extents → StaysInside extents list
        → StaysInside (extents ++ buffer_extents list s level array buffer ∷ [])
        (datacopied list s level array buffer) }
    ensures keeps { (list : List Element) (s level array buffer dimensions : ℕ)
        → IsCopyable list array buffer dimensions → HasLoop list s level
        → (arrays buffers : List (List ℕ)) → buffer ≡ length (arrays ++ buffers)
        → KeepsArrays arrays list buffers (datacopied list s level array buffer)
        (buffers ++ buffer_extents list s level array buffer ∷ []) }
    ensures flat { (list : List Element) (s level array buffer dimensions : ℕ)
        → IsCopyable list array buffer dimensions → HasLoop list s level
        → (extents : List (List ℕ)) → buffer ≡ length extents → StaysInside extents list
        → (cells more : List ℤ) → length cells ≡ total extents
        → length more ≡ cells_in (buffer_extents list s level array buffer)
        → done_flat extents list cells ≡ take (length cells)
        (done_flat (extents ++ buffer_extents list s level array buffer ∷ [])
        (datacopied list s level array buffer) (cells ++ more)) }
{}

/// The extents of a buffer are enough for the cells that are used with one prefix, and not greater
/// than those need. There is one such number alone.
pub fn extents_are_exact()
    ensures dimensions { (dimensions : ℕ) (us : List Use)
        → ((u : Use) → In u us → length u.cell ≡ dimensions) → (u : Use) → In u us
        → length (extents us) ≡ dimensions }
    ensures exact { (dimensions : ℕ) (us : List Use)
        → ((u : Use) → In u us → length u.cell ≡ dimensions) → (u : Use) → In u us
        → (k : ℕ) → k < dimensions → IsExtent us k (slice_index_or (extents us) k 0) }
    ensures alone { (us : List Use) (k e f : ℕ) → IsExtent us k e → IsExtent us k f → e ≡ f }
{}
