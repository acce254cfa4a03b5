//! Tests of lists of numbers, labels and identities.

ghost use Rattle.std.specs.Prelude.{◌≡◌, ◌↔◌, IsTrue};
ghost use Rattle.ch_timed.specs.Timed.{same_identity, same_label};
ghost use Rattle.ch_timed.specs.Vectors.{same_numbers};

use ch_timed::{Identity, Label};

#[tactic(auto, using(crate::proofs::Equality::numbers_tested, crate::proofs::Equality::numbers_told))]
pub(crate) fn same_numbers(a: &[i64], b: &[i64]) -> bool
    ensures test { result ≡ same_numbers a.now b.now }
    ensures tells { IsTrue result ↔ (a.now ≡ b.now) }
{
    a == b
}

fn same_label(a: Label, b: Label) -> bool
    ensures { result ≡ same_label a b }
{
    match (a, b) {
        (Label::Stmt(m), Label::Stmt(n)) | (Label::Move(m), Label::Move(n)) => m == n,
        _ => false,
    }
}

pub(crate) fn same_identity(a: &Identity, b: &Identity) -> bool
    ensures { result ≡ same_identity a.now b.now }
{
    same_label(a.label, b.label) && same_numbers(a.iters.as_slice(), b.iters.as_slice())
}
