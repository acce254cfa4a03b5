//! What tells of a point what it comes to.
ghost use Rattle.std.specs.Prelude.{◌≡◌, ℕ, IfOk, IsTrue, List};
ghost use Rattle.ch_grid.specs.declared.param.Param.{Param};
ghost use Rattle.ch_grid.specs.Grid.{sizes};
ghost use Rattle.ch_grid.specs.Points.{is_point};
ghost use Rattle.ch_tune.specs.Tuned.{Judged, found_of};

use ch_grid::Grid;
use ch_report::Found;
use std::alloc::{AllocError, Global};

/// A subject that is tuned over a grid: each point has a cost, or a refusal, and always the same.
pub trait Judge {
    /// The parameters of the grid.
    ghost params: { Self → List Param };
    /// What is said of each point.
    ghost judged: { Self → Judged };

    /// The grid of its points.
    fn grid(&self) -> &Grid
        ensures { result.now.params ≡ params self.now };

    /// What is said of a point of the grid, as no client's finding.
    fn judge(&self, alloc: Global, point: &[u32]) -> Result<Found, AllocError>
        requires { IsTrue (is_point (sizes (params self.now)) point.now) }
        ensures { IfOk result (λ f. f ≡ found_of (judged self.now point.now)) };
}
