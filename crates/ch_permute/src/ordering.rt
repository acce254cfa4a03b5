//! Orders of levels: which level an order puts at each place.

ghost use Rattle.std.specs.Prelude.{◌≡◌, ◌+◌, ◌<◌, ◌≤◌, ◌∷◌, [], ◌^◌, drop};
ghost use Rattle.std.specs.Prelude.{length, pos, MatchOption, IsTrue};
ghost use Rattle.std.specs.List.{list_any};
ghost use Rattle.std.specs.Ordering.{int_eq};
ghost use Rattle.ch_permute.specs.Permuted.{is_permutation, last_from, moving};
ghost use Rattle.ch_permute.specs.Turned.{place, source, target};

use ch_moved::causes::contains;

/// Whether each level from 1 on is one of the numbers.
pub(crate) fn is_permutation(order: &[i64]) -> bool
    ensures { result ≡ is_permutation order.now }
{
    for k in 0..order.len() {
        if !contains(order, k as i64 + 1) {
            return false;
        }
    }
    true
}

/// The first level at which the order has another one.
pub(crate) fn first_moving(order: &[i64]) -> Option<usize>
    ensures { MatchOption result (moving 1 order.now ≡ [])
        (λ first. moving 1 order.now ≡ first ∷ moving (first + 1) (drop first order.now)) }
{
    for k in 0..order.len() {
        if order[k] != k as i64 + 1 {
            return Some(k + 1);
        }
    }
    None
}

/// The last level at which the order has another one, where `first` is the first one.
pub(crate) fn last_moving(order: &[i64], first: usize) -> usize
    ensures { result ≡ last_from first (moving (first + 1) (drop first order.now)) }
{
    let mut last = first;
    for k in first..order.len() {
        if order[k] != k as i64 + 1 {
            last = k + 1;
        }
    }
    last
}

/// The place of the first such number.
fn place(numbers: &[i64], number: i64) -> usize
    ensures { result ≡ place number numbers.now }
{
    for k in 0..numbers.len() {
        if number == numbers[k] {
            return k;
        }
    }
    numbers.len()
}

/// Which level, from 0, comes to that level.
pub(crate) fn source(order: &[i64], level: usize) -> usize
    requires { IsTrue (is_permutation order.now) }
    ensures { result ≡ source order.now level }
{
    if level < order.len() {
        order[level] as usize - 1
    } else {
        level
    }
}

/// To which level that level, from 0, goes.
pub(crate) fn target(order: &[i64], level: usize) -> usize
    ensures { result ≡ target order.now level }
{
    if level < order.len() {
        place(order, level as i64 + 1)
    } else {
        level
    }
}
