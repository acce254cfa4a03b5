ghost use Rattle.std.specs.Prelude.{◌≡◌, ◌^◌, length, IsTrue, false};
ghost use Rattle.std.specs.List.{All};
ghost use Rattle.ch_affine.specs.Affine.{IsAtMost};
ghost use Rattle.ch_poly.specs.Goals.{Reaches};

use ch_affine::Aff;

/// What a point has to meet: the rows are at least 0 there, and the forms of `tops` at least
/// `bound`.
///
/// A bound stands beside its forms, since taken into a form's constant it would leave the type.
#[derive(Drop)]
pub struct Goal<'a> {
    pub rows: &'a [Aff],
    pub tops: &'a [Aff],
    pub bound: i128,
}

/// Whether each row has at least this value at the point.
pub fn reach(rows: &[Aff], bound: i128, point: &[i64]) -> bool
    requires same { All (λ f. length f.coefs ≡ length point.now) rows.now }
    requires small { All (IsAtMost (2 ^ 54)) point.now }
    ensures yes { IsTrue result → Reaches bound rows.now point.now }
    ensures no { result ≡ false → Reaches bound rows.now point.now → ⊥ }
{
    for row in rows {
        if row.value(point) < bound {
            return false;
        }
    }
    true
}
