//! Laws of the definitions, each carried by a function without arguments that does nothing.

ghost use Rattle.std.specs.Prelude.{◌≡◌, ◌≤◌, ℕ, ◌++◌, List, length, true};
ghost use Rattle.std.specs.List.{All, IsDistinct};
ghost use Rattle.ch_grid.specs.declared.param.Param.{Param};
ghost use Rattle.ch_grid.specs.Grid.{sizes};
ghost use Rattle.ch_grid.specs.Points.{count, is_point};
ghost use Rattle.ch_rank.specs.declared.outcome.Costed.{Costed};
ghost use Rattle.ch_rank.specs.Moves.{same_point};
ghost use Rattle.ch_rank.specs.Search.{Known, search_on};
ghost use Rattle.ch_rank.specs.Entries.{are_legal, at_entries, known, played};
ghost use Rattle.ch_rank.specs.Growth.{Keeps, Knows};

/// Each beginning of a legal list of entries is legal.
pub fn beginnings_are_legal()
    ensures { (grid : List Param) (repeat : ℕ) (entries more : List Costed)
        → are_legal grid repeat (entries ++ more) ≡ true → are_legal grid repeat entries ≡ true }
{}

/// As a legal list of entries goes on, each outcome stays, and each trial keeps its point.
pub fn outcomes_and_points_stay()
    ensures outcomes { (grid : List Param) (repeat : ℕ) (entries more : List Costed)
        → are_legal grid repeat (entries ++ more) ≡ true
        → Knows (known repeat entries) (known repeat (entries ++ more)) }
    ensures points { (grid : List Param) (repeat : ℕ) (entries more : List Costed)
        → are_legal grid repeat (entries ++ more) ≡ true
        → Keeps (played (at_entries grid repeat entries)).points
        (played (at_entries grid repeat (entries ++ more))).points }
{}

/// Whatever outcomes are known, each trial is at a point of the grid and no two are at one. So
/// there are no more trials than points of the grid.
pub fn trials_are_points()
    ensures in_grid { (grid : List Param) (outcomes : Known)
        → All (λ p. is_point (sizes grid) p ≡ true) (search_on (sizes grid) outcomes).points }
    ensures apart { (grid : List Param) (outcomes : Known)
        → IsDistinct same_point (search_on (sizes grid) outcomes).points }
    ensures few { (grid : List Param) (outcomes : Known)
        → length (search_on (sizes grid) outcomes).points ≤ count (sizes grid) }
{}
