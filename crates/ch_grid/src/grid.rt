ghost use Rattle.std.specs.Prelude.{◌≡◌, ℕ, ◌+◌, ◌*◌, ◌<◌, ◌≤◌, not, nat_le, pos, length};
ghost use Rattle.std.specs.Prelude.{slice_get, IfOk, IfErr, IfSome, IsTrue, true, Some, None, All};
ghost use Rattle.std.specs.List.{position, list_all};
ghost use Rattle.ch_grid.specs.Grid.{is_within, is_good, size, sizes, value_at, fault_of, clamped};
ghost use Rattle.ch_grid.specs.Points.{count};

use crate::param::{Param, is_good, size_of, value_at};
use ch_affine::List;

/// The most points of a grid.
const MAX_POINTS: u64 = 65_536;

/// Why a list of parameters makes no grid.
#[derive(Clone, Copy, Debug, PartialEq, Eq)]
pub enum GridError {
    /// Parameter `at` is the first with its low end above its high end, a step below 1, or a
    /// magnitude above 2^20.
    BadParam { at: u32 },
    /// Each parameter is good, and there are more than 65,536 points.
    TooManyPoints,
}

/// At most six parameters with at most 65,536 points. A point has one index for each parameter;
/// without parameters the empty point is the only one.
#[derive(Debug, Drop)]
pub struct Grid {
    pub params: List<Param>,
    pub ghost within: { IsTrue (is_within params) },
}

/// The place of the first parameter that is out of its limits.
fn first_bad(params: &[Param]) -> Option<usize>
    ensures { result ≡ position (λ param. not (is_good param)) params.now }
{
    params.iter().position(|param| !is_good(param))
}

/// Whether there are too many points. It stops at the first product above the limit.
fn has_many(params: &[Param]) -> bool
    requires { list_all is_good params.now ≡ true }
    ensures { result ≡ not (nat_le (count (sizes params.now)) 65536) }
{
    let mut points: u64 = 1;
    for param in params {
        points *= size_of(param) as u64;
        if points > MAX_POINTS {
            return true;
        }
    }
    false
}

impl Grid {
    /// The grid of these parameters, the first of which counts slowest.
    pub fn of(params: List<Param>) -> Result<Grid, GridError>
        requires { length params ≤ 6 }
        ensures ok { IfOk result (λ grid. (grid.params ≡ params) × (fault_of params ≡ None)) }
        ensures err { IfErr result (λ fault. fault_of params ≡ Some fault) }
    {
        let all = params.as_slice();
        if let Some(at) = first_bad(all) {
            return Err(GridError::BadParam { at: at as u32 });
        }
        if has_many(all) {
            return Err(GridError::TooManyPoints);
        }
        Ok(Grid { params })
    }

    /// How many values parameter `k` has.
    pub fn size_of(&self, k: u32) -> u32
        requires { k < length self.now.params }
        ensures value { IfSome (slice_get self.now.params k) (λ param. result ≡ size param) }
        ensures some { 1 ≤ result }
    {
        let all = self.params.as_slice();
        size_of(&all[k as usize])
    }

    /// How many points there are, from 1 to 65,536.
    pub fn points(&self) -> u32
        ensures value { result ≡ count (sizes self.now.params) }
        ensures few { result ≤ 65536 }
    {
        let all = self.params.as_slice();
        let mut points: u32 = 1;
        for param in all {
            points *= size_of(param);
        }
        points
    }

    /// The nearest index of parameter `k`: 0 below its range and the last index above it.
    pub fn project(&self, k: u32, x: i64) -> u32
        requires { k < length self.now.params }
        ensures { IfSome (slice_get self.now.params k) (λ param. result ≡ clamped (size param) x) }
    {
        let last = self.size_of(k) - 1;
        if x < 0 {
            0
        } else if x.unsigned_abs() < last as u64 {
            x.unsigned_abs() as u32
        } else {
            last
        }
    }

    /// The value at an index of parameter `k`.
    pub fn value_of(&self, k: u32, index: u32) -> i64
        requires param { k < length self.now.params }
        requires index { IfSome (slice_get self.now.params k) (λ param. index < size param) }
        ensures { IfSome (slice_get self.now.params k) (λ param. result ≡ value_at param index) }
    {
        let all = self.params.as_slice();
        value_at(&all[k as usize], index)
    }
}
