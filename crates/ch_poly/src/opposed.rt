ghost use Rattle.std.specs.Prelude.{◌+ℤ◌, ◌<ℤ◌, pos, IsTrue};
ghost use Rattle.ch_poly.specs.Opposed.{IsOpposed, IsNever};

use crate::negative::are_negative;
use ch_affine::Aff;

/// Whether two of the rows contradict each other at each point: their sum is a constant below 0.
/// Without this test the narrowing would walk as long as the loops are, one number at a time.
pub fn any_opposed(rows: &[Aff]) -> bool
    ensures { IsTrue result → IsNever rows.now }
{
    for i in 0..rows.len() {
        for j in i + 1..rows.len() {
            if oppose(&rows[i], &rows[j]) {
                return true;
            }
        }
    }
    false
}

fn oppose(f: &Aff, g: &Aff) -> bool
    ensures { IsTrue result → IsOpposed f.now g.now }
{
    let a = f.coefs.as_slice();
    let b = g.coefs.as_slice();
    is_below(f.constant, g.constant) && are_negative(a, b)
}

fn is_below(x: i64, y: i64) -> bool
    ensures { IsTrue result → (x +ℤ y) <ℤ pos 0 }
{
    x as i128 + (y as i128) < 0
}
