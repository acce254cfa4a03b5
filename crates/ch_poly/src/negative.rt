//! Tests whether rows are each other's negatives.

ghost use Rattle.std.specs.Prelude.{◌≡◌, ◌<◌, ℕ, neg_ℤ, length, IsTrue, false};
ghost use Rattle.ch_poly.specs.Boxes.{at};
ghost use Rattle.ch_poly.specs.Exclusions.{IsNegative};

use ch_affine::Aff;

fn is_minus(x: i64, y: i64) -> bool
    ensures yes { IsTrue result → x ≡ neg_ℤ y }
    ensures no { result ≡ false → x ≡ neg_ℤ y → ⊥ }
{
    x as i128 == -(y as i128)
}

/// Whether the one row is the other's negative.
pub fn is_negative(f: &Aff, g: &Aff) -> bool
    ensures yes { IsTrue result → IsNegative f.now g.now }
    ensures no { result ≡ false → IsNegative f.now g.now → ⊥ }
{
    if !is_minus(f.constant, g.constant) {
        return false;
    }
    are_negative(f.coefs.as_slice(), g.coefs.as_slice())
}

/// Whether there are as many numbers, each the other's negative.
pub fn are_negative(a: &[i64], b: &[i64]) -> bool
    ensures same { IsTrue result → length a.now ≡ length b.now }
    ensures each { IsTrue result → (k : ℕ) → k < length a.now → at a.now k ≡ neg_ℤ (at b.now k) }
    ensures no { result ≡ false → length a.now ≡ length b.now
        → ((k : ℕ) → k < length a.now → at a.now k ≡ neg_ℤ (at b.now k)) → ⊥ }
{
    if a.len() != b.len() {
        return false;
    }
    for k in 0..a.len() {
        if !is_minus(a[k], b[k]) {
            return false;
        }
    }
    true
}
