//! Points of a grid.
ghost use Rattle.std.specs.Prelude.{◌≡◌, ◌++◌, IsTrue, OnOk};
ghost use Rattle.ch_grid.specs.Grid.{sizes};
ghost use Rattle.ch_grid.specs.Points.{is_point};
ghost use Rattle.ch_report.specs.Points.{point_text, values_text};

use ch_affine::Text;
use ch_constrain::values_at;
use ch_grid::Grid;
use ch_print::put_integers;
use std::alloc::{AllocError, Global};

/// Adds the values of parameters, as `(3,4)`, and `()` where there are none.
#[tactic(auto, unfolding(crate::specs::Points::values_text))]
pub fn put_values(out: &mut Text, values: &[i64]) -> Result<(), AllocError>
    ensures { OnOk result (out.new ≡ out.old ++ values_text values.now) }
{
    out.append(b"(")?;
    put_integers(out, values)?;
    out.append(b")")
}

/// Adds a point of a grid by the parameters' values. The point has an index for each parameter.
pub fn put_point(
    alloc: Global,
    out: &mut Text,
    grid: &Grid,
    point: &[u32],
) -> Result<(), AllocError>
    requires { IsTrue (is_point (sizes grid.now.params) point.now) }
    ensures { OnOk result (out.new ≡ out.old ++ point_text grid.now.params point.now) }
{
    let values = values_at(alloc, grid, point)?;
    put_values(out, values.as_slice())
}
