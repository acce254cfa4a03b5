ghost use Rattle.std.specs.Prelude.{◌≡◌, ◌≤◌, ◌<◌, ◌^◌, ℕ, length, unsigned_abs, IsTrue, false};
ghost use Rattle.std.specs.Int.{IsGcd};
ghost use Rattle.ch_poly.specs.Exclusions.{IsDivisor};
ghost use Prim.Native.Nat.{◌∣◌};

/// The greatest common divisor, by Euclid.
pub fn gcd(a: u64, b: u64) -> u64
    ensures { IsGcd a b result }
{
    let mut x = a;
    let mut y = b;
    while y != 0 {
        let rest = x % y;
        x = y;
        y = rest;
    }
    x
}

/// The greatest common divisor of all of them; 0 where all are 0.
pub fn common_divisor(numbers: &[i64]) -> u64
    ensures { IsDivisor result numbers.now }
{
    let mut found = 0u64;
    for k in 0..numbers.len() {
        found = gcd(found, numbers[k].unsigned_abs());
    }
    found
}

/// Whether the number divides the other; 0 divides 0 alone.
pub fn divides(d: u64, number: u64) -> bool
    ensures yes { IsTrue result → d ∣ number }
    ensures no { result ≡ false → d ∣ number → ⊥ }
{
    if d == 0 { number == 0 } else { number % d == 0 }
}
