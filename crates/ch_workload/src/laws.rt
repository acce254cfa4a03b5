//! Laws of the definitions, each carried by a function without arguments that does nothing.
ghost use Rattle.std.specs.Prelude.{◌≡◌, ℕ, List, IsTrue, length, true};
ghost use Rattle.ch_constrain.specs.Nearest.{is_admissible};
ghost use Rattle.ch_grid.specs.declared.param.Param.{Param};
ghost use Rattle.ch_grid.specs.Grid.{sizes};
ghost use Rattle.ch_grid.specs.Points.{is_point};
ghost use Rattle.ch_script.specs.declared.recipe.Cond.{Cond};
ghost use Rattle.ch_script.specs.Requirements.{all_requirements};
ghost use Rattle.ch_workload.specs.Admissible.{has_admissible};

/// A grid has an admissible point exactly where some point of it meets all conditions.
pub fn admissible_points()
    ensures some { (conditions : List Cond) (params : List Param) → has_admissible conditions params
        ≡ true
        → (point : List ℕ) × IsTrue (is_point (sizes params) point)
        × IsTrue (is_admissible params (all_requirements (length params) conditions) point) }
    ensures each { (conditions : List Cond) (params : List Param) (point : List ℕ)
        → IsTrue (is_point (sizes params) point)
        → IsTrue (is_admissible params (all_requirements (length params) conditions) point)
        → has_admissible conditions params ≡ true }
{}
