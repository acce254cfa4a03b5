//! Laws of the definitions, each carried by a function without arguments that does nothing.
ghost use Rattle.std.specs.Prelude.{◌≡◌, ℕ, List};
ghost use Rattle.ch_grid.specs.declared.param.Param.{Param};
ghost use Rattle.ch_report.specs.declared.part.SessionPart.{SessionPart};
ghost use Rattle.ch_tune.specs.Tuned.{IsTuned, Judged};

/// One thread has no choice: what a search comes to follows from its grid, from how often a trial
/// is measured, and from what is said of its points.
pub fn parts_are_unique()
    ensures { (grid : List Param) (repeat : ℕ) (judged : Judged) (one other : SessionPart)
        → IsTuned grid repeat judged one → IsTuned grid repeat judged other → one ≡ other }
{}
