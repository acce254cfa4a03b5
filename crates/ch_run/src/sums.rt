//! The sum of an array's elements, each times its place.
ghost use Rattle.std.specs.Prelude.{◌≡◌, ◌<◌, ◌≤◌, ◌+◌, ◌^◌, ◌+ℤ◌, ◌*ℤ◌, length, pos};
ghost use Rattle.std.specs.Int.{int_wrap, w64};
ghost use Rattle.ch_run.specs.EvalText.{sum_of};

fn plus(one: i64, other: i64) -> i64
    ensures { result ≡ int_wrap w64 (one +ℤ other) }
{
    one.wrapping_add(other)
}

fn times(one: i64, other: i64) -> i64
    ensures { result ≡ int_wrap w64 (one *ℤ other) }
{
    one.wrapping_mul(other)
}

/// The place, counted from 1.
fn weight(place: usize) -> i64
    requires { place < 2 ^ 40 }
    ensures { result ≡ pos (place + 1) }
{
    place as i64 + 1
}

/// The sum with the element at a place more, times the place counted from 1.
fn with_element(sum: i64, place: usize, element: i64) -> i64
    requires { place < 2 ^ 40 }
    ensures { result ≡ int_wrap w64 (sum +ℤ int_wrap w64 (pos (place + 1) *ℤ element)) }
{
    plus(sum, times(weight(place), element))
}

/// The sum of the elements, each times its place counted from 1, as it wraps round.
#[tactic(auto, using(crate::proofs::Weighted::sum_on, crate::proofs::Weighted::sum_done))]
pub(crate) fn sum_of(cells: &[i64]) -> i64
    requires { length cells.now ≤ 2 ^ 40 }
    ensures { result ≡ sum_of cells.now }
{
    let mut sum: i64 = 0;
    for place in 0..cells.len() {
        sum = with_element(sum, place, cells[place]);
    }
    sum
}
