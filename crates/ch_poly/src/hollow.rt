ghost use Rattle.std.specs.Prelude.{◌≡◌, ◌^◌, length, IsTrue};
ghost use Rattle.std.specs.List.{All};
ghost use Rattle.ch_affine.specs.Affine.{IsAtMost};
ghost use Rattle.ch_poly.specs.Boxes.{IsBoxed};
ghost use Rattle.ch_poly.specs.Mixes.{DividesOpen, IsMissed};
ghost use Prim.Native.Nat.{◌∣◌};

use crate::divisor::gcd;
use crate::peak::most;

/// The greatest number that divides the coefficients of the open variables.
fn open_divisor(coefs: &[i64], lows: &[i64], highs: &[i64]) -> u64
    requires lows { length lows.now ≡ length coefs.now }
    requires highs { length highs.now ≡ length coefs.now }
    requires small { All (IsAtMost (2 ^ 60)) coefs.now }
    ensures { DividesOpen result coefs.now lows.now highs.now }
{
    let mut found = 0u64;
    for k in 0..coefs.len() {
        if lows[k] != highs[k] {
            found = gcd(found, coefs[k].unsigned_abs());
        }
    }
    found
}

fn lacks(d: u64, number: u128) -> bool
    ensures { IsTrue result → d ∣ number → ⊥ }
{
    if d == 0 {
        number != 0
    } else {
        number % d as u128 != 0
    }
}

/// Whether the sum has this value at no point of the box, since the greatest common divisor of the
/// open variables' coefficients doesn't divide what the fixed ones leave of it.
pub fn misses(coefs: &[i64], bound: i128, lows: &[i64], highs: &[i64]) -> bool
    requires same { length coefs.now ≡ length lows.now }
    requires small { All (IsAtMost (2 ^ 60)) coefs.now }
    requires boxed { IsBoxed lows.now highs.now }
    ensures { IsTrue result → IsMissed coefs.now bound lows.now highs.now }
{
    let divisor = open_divisor(coefs, lows, highs);
    if divisor == 1 {
        return false;
    }
    lacks(divisor, most(0, coefs, lows, highs).abs_diff(bound))
}
