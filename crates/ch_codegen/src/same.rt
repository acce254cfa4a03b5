//! Whether loops have the same bounds.

ghost use Rattle.std.specs.Prelude.{◌≡◌, length, IsTrue, ◌↔◌};

use crate::bounds::Ends;
use ch_affine::Aff;
use ch_code::Bound;

fn same_numbers(ours: &[i64], theirs: &[i64]) -> bool
    ensures { IsTrue result → ours.now ≡ theirs.now }
{
    if ours.len() != theirs.len() {
        return false;
    }
    for k in 0..ours.len() {
        if ours[k] != theirs[k] {
            return false;
        }
    }
    true
}

/// Whether two forms differ in their constants alone.
pub(crate) fn same_coefs(ours: &Aff, theirs: &Aff) -> bool
    ensures { IsTrue result → ours.now.coefs ≡ theirs.now.coefs }
{
    same_numbers(ours.coefs.as_slice(), theirs.coefs.as_slice())
}

pub(crate) fn same_form(ours: &Aff, theirs: &Aff) -> bool
    ensures { IsTrue result → ours.now ≡ theirs.now }
{
    ours.constant == theirs.constant && same_numbers(ours.coefs.as_slice(), theirs.coefs.as_slice())
}

fn same_bound(ours: &Bound, theirs: &Bound) -> bool
    ensures { IsTrue result → ours.now ≡ theirs.now }
{
    ours.divisor == theirs.divisor && same_form(&ours.form, &theirs.form)
}

fn same_bounds(ours: &[Bound], theirs: &[Bound]) -> bool
    ensures { IsTrue result → ours.now ≡ theirs.now }
{
    if ours.len() != theirs.len() {
        return false;
    }
    for k in 0..ours.len() {
        if !same_bound(&ours[k], &theirs[k]) {
            return false;
        }
    }
    true
}

pub(crate) fn same_ends(ours: &Ends, theirs: &Ends) -> bool
    ensures { IsTrue result → ours.now ≡ theirs.now }
{
    same_bounds(ours.lows.as_slice(), theirs.lows.as_slice())
        && same_bounds(ours.highs.as_slice(), theirs.highs.as_slice())
}
