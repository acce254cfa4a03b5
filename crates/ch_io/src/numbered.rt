ghost use Rattle.std.specs.Prelude.{◌↔◌, IsTrue, Contains};

/// Whether a call's number, from 1, is among the listed ones.
pub fn is_listed(fail: &[u32], number: u64) -> bool
    ensures { IsTrue result ↔ Contains fail.now number }
{
    fail.iter().any(|&n| u64::from(n) == number)
}
