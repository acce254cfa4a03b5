//! Laws of the commands, each carried by a function without arguments that does nothing.

ghost use Rattle.std.specs.Prelude.{◌≡◌, ℕ, ℤ, pos, IsTrue, List, map};
ghost use Rattle.std.specs.List.{range_with_len};
ghost use Rattle.ch_permute.specs.Permuted.{permuted};
ghost use Rattle.ch_permute.specs.Raised.{shifted, skewed};
ghost use Rattle.ch_space.specs.Built.{zeros};
ghost use Rattle.ch_timed.specs.declared.element.Element.{Element};
ghost use Rattle.ch_timed.specs.Closed.{closed_up};
ghost use Rattle.ch_timed.specs.Timed.{is_well_formed};

/// Loops in the order that they have stay as they are.
pub fn same_order_changes_nothing()
    ensures { (list : List Element) (s : ℤ) (m : ℕ) → IsTrue (is_well_formed list)
        → permuted list s (map (λ level. pos level) (range_with_len 1 m)) ≡ closed_up list }
{}

/// A loop that is skewed by zeros stays as it is.
pub fn skew_by_zeros_changes_nothing()
    ensures { (list : List Element) (numbers : List ℤ) (level : ℤ) (n : ℕ)
        → IsTrue (is_well_formed list)
        → skewed list numbers level (zeros n) ≡ closed_up list }
{}

/// A loop that is shifted by 0 stays as it is.
pub fn shift_by_zero_changes_nothing()
    ensures { (list : List Element) (numbers : List ℤ) (level : ℤ) → IsTrue (is_well_formed list)
        → shifted list numbers level (pos 0) ≡ closed_up list }
{}
