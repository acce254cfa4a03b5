ghost use Rattle.std.specs.Prelude.{◌≡◌, ℕ, ◌+◌, ◌*◌, ◌^◌, ◌<◌, ◌≤◌, ◌+ℤ◌};
ghost use Rattle.std.specs.Prelude.{◌*ℤ◌, pos, unsigned_abs, IsTrue};
ghost use Rattle.ch_grid.specs.Grid.{is_small, is_good, size, value_at};

/// One parameter: the values `low`, `low + step`, `low + 2 * step` and so on, as far as `high`.
#[derive(Clone, Copy, Debug, PartialEq, Eq)]
pub struct Param {
    pub low: i64,
    pub high: i64,
    pub step: i64,
}

/// The greatest magnitude of a bound or a step, 2^20.
const MAX_MAGNITUDE: u64 = 1_048_576;

fn is_small(number: i64) -> bool
    ensures { result ≡ is_small number }
{
    number.unsigned_abs() <= MAX_MAGNITUDE
}

/// Whether the low end is at most the high end, the step at least 1, and each of a magnitude of at
/// most 2^20.
pub(crate) fn is_good(param: &Param) -> bool
    ensures { result ≡ is_good param.now }
{
    param.low <= param.high
        && 1 <= param.step
        && is_small(param.low)
        && is_small(param.high)
        && is_small(param.step)
}

/// How many values a parameter has. A step above the range leaves one, the low end.
#[tactic(auto, unfolding(crate::specs::Grid::size))]
pub(crate) fn size_of(param: &Param) -> u32
    requires { IsTrue (is_good param.now) }
    ensures value { result ≡ size param.now }
    ensures some { 1 ≤ result }
    ensures few { result ≤ 2 ^ 22 }
{
    (param.high.abs_diff(param.low) / param.step.unsigned_abs() + 1) as u32
}

fn times(step: i64, index: u32) -> i64
    requires step { unsigned_abs step ≤ 2 ^ 20 }
    requires index { index ≤ 2 ^ 22 }
    ensures value { result ≡ step *ℤ pos index }
    ensures bound { unsigned_abs result ≤ 2 ^ 42 }
{
    step * index as i64
}

fn plus(low: i64, offset: i64) -> i64
    requires low { unsigned_abs low ≤ 2 ^ 20 }
    requires offset { unsigned_abs offset ≤ 2 ^ 42 }
    ensures { result ≡ low +ℤ offset }
{
    low + offset
}

/// The value at an index.
#[tactic(auto, using(crate::proofs::Sizes::size_few))]
pub(crate) fn value_at(param: &Param, index: u32) -> i64
    requires good { IsTrue (is_good param.now) }
    requires index { index < size param.now }
    ensures { result ≡ value_at param.now index }
{
    plus(param.low, times(param.step, index))
}
