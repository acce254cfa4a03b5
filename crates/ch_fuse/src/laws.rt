//! Laws of the commands, each carried by a function without arguments that does nothing.

ghost use Rattle.std.specs.Prelude.{◌≡◌, ℤ, IsTrue, List, []};
ghost use Rattle.ch_fuse.specs.Distributed.{distributed};
ghost use Rattle.ch_fuse.specs.Fused.{fused};
ghost use Rattle.ch_timed.specs.declared.element.Element.{Element};
ghost use Rattle.ch_timed.specs.Closed.{closed_up};
ghost use Rattle.ch_timed.specs.Timed.{is_well_formed};

/// Where no loop is named for fusing, all stays as it is.
pub fn fusing_none_changes_nothing()
    ensures { (list : List Element) (level : ℤ) → IsTrue (is_well_formed list)
        → fused list [] level ≡ closed_up list }
{}

/// Where no piece is named for distributing, all stays as it is.
pub fn distributing_at_none_changes_nothing()
    ensures { (list : List Element) (level : ℤ) → IsTrue (is_well_formed list)
        → distributed list [] level ≡ closed_up list }
{}
