ghost use Rattle.std.specs.Prelude.{◌≡◌, ◌<◌, [], length, IsTrue, false, MatchOption, IfSome};
ghost use Rattle.ch_poly.specs.Exclusions.{IsUneven, IsGcdRow, IsRangeRow};
ghost use Rattle.ch_poly.specs.Exclusions.{IsFirst, IsNowhere, IsExcluded};
ghost use Rattle.ch_poly.specs.Points.{points};

use crate::divisor::{common_divisor, divides};
use crate::exclusion::Excluded;
use crate::negative::is_negative;
use ch_affine::extremes::greatest_in;
use ch_affine::{Aff, System};

fn is_uneven(f: &Aff) -> bool
    ensures yes { IsTrue result → IsUneven f.now }
    ensures no { result ≡ false → IsUneven f.now → ⊥ }
{
    let divisor = common_divisor(f.coefs.as_slice());
    !divides(divisor, f.constant.unsigned_abs())
}

fn is_gcd_row(rows: &[Aff], i: usize) -> bool
    requires { i < length rows.now }
    ensures yes { IsTrue result → IsGcdRow rows.now i }
    ensures no { result ≡ false → IsGcdRow rows.now i → ⊥ }
{
    let row = &rows[i];
    for j in i + 1..rows.len() {
        if is_negative(row, &rows[j]) {
            return is_uneven(row);
        }
    }
    false
}

fn first_gcd_row(rows: &[Aff]) -> Option<usize>
    ensures { MatchOption result (IsNowhere (IsGcdRow rows.now)) (IsFirst (IsGcdRow rows.now)) }
{
    for i in 0..rows.len() {
        if is_gcd_row(rows, i) {
            return Some(i);
        }
    }
    None
}

fn is_range_row(s: &System, i: usize) -> bool
    requires { i < length s.now.rows }
    ensures yes { IsTrue result → IsRangeRow s.now i }
    ensures no { result ≡ false → IsRangeRow s.now i → ⊥ }
{
    s.known();
    let rows = s.rows.as_slice();
    greatest_in(s.boxes.as_slice(), &rows[i]) < 0
}

fn first_range_row(s: &System) -> Option<usize>
    ensures { MatchOption result (IsNowhere (IsRangeRow s.now)) (IsFirst (IsRangeRow s.now)) }
{
    for i in 0..s.rows.len() {
        if is_range_row(s, i) {
            return Some(i);
        }
    }
    None
}

/// Why no point is in the box where two rows, or one row, already say so; None where the system
/// needs a search.
///
/// `Gcd` has the first row of which a later row is the negative, so that both hold only where the
/// row is 0, and whose constant the greatest common divisor of its coefficients doesn't divide.
/// Without a coefficient other than 0 the divisor is 0, which divides 0 alone. `Range` comes where
/// there is no such row, and has the first row whose greatest value over the box is below 0. It
/// takes no memory, and its time is that of comparing each row with all later ones. (These are the
/// first two tests of Pugh's Omega test, 1991.)
pub fn excluded(s: &System) -> Option<Excluded>
    ensures first { IsExcluded s.now result }
    ensures empty { IfSome result (λ e. points s.now ≡ []) }
{
    if let Some(row) = first_gcd_row(s.rows.as_slice()) {
        return Some(Excluded::Gcd { row });
    }
    if let Some(row) = first_range_row(s) {
        return Some(Excluded::Range { row });
    }
    None
}
