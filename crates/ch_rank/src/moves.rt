ghost use Rattle.std.specs.Prelude.{◌≡◌, ◌+◌, ◌<◌, ◌≤◌, ◌-◌, ◌^◌, length, take, min, true};
ghost use Rattle.std.specs.List.{All};
ghost use Rattle.ch_grid.specs.Points.{is_point, count};
ghost use Rattle.ch_rank.specs.Moves.{moved, centre, width};
ghost use Rattle.ch_rank.specs.Rules.{rule};

/// How a point moves about the best one.
#[derive(Clone, Copy, Debug, PartialEq, Eq)]
pub(crate) enum Move {
    Reflect,
    Expand,
    Halfway,
}

/// The index that `v` moves to about `a`, before it is clamped above.
fn target(how: Move, a: u32, v: u32) -> u32
    requires a { a < 2 ^ 16 }
    requires v { v < 2 ^ 16 }
    ensures { result ≡ rule how a v }
{
    match how {
        Move::Reflect => (2 * a).saturating_sub(v),
        Move::Expand => (3 * a).saturating_sub(2 * v),
        Move::Halfway => a + v.saturating_sub(a) / 2 - a.saturating_sub(v) / 2,
    }
}

/// The index that `v` moves to about `a` among n.
fn clamped(how: Move, a: u32, v: u32, n: u32) -> u32
    requires a { a < n }
    requires v { v < n }
    requires n { n ≤ 2 ^ 16 }
    ensures { result ≡ min (rule how a v) (n - 1) }
{
    let to = target(how, a, v);
    if to < n - 1 { to } else { n - 1 }
}

/// A point moved about the best one, with zeros after its indices.
pub(crate) fn moved(how: Move, sizes: &[u32], a: &[u32], v: &[u32]) -> [u32; 6]
    requires dims { length sizes.now ≤ 6 }
    requires small { count sizes.now ≤ 65536 }
    requires a { is_point sizes.now a.now ≡ true }
    requires v { is_point sizes.now v.now ≡ true }
    ensures value { take (length sizes.now) result ≡ moved (rule how) sizes.now a.now v.now }
    ensures in_grid { is_point sizes.now (take (length sizes.now) result) ≡ true }
{
    let mut indices = [0; 6];
    for i in 0..sizes.len() {
        indices[i] = clamped(how, a[i], v[i], sizes[i]);
    }
    indices
}

/// The middle index of each coordinate, with zeros after them.
pub(crate) fn centre(sizes: &[u32]) -> [u32; 6]
    requires dims { length sizes.now ≤ 6 }
    requires some { All (λ n. 1 ≤ n) sizes.now }
    ensures value { take (length sizes.now) result ≡ centre sizes.now }
    ensures in_grid { is_point sizes.now (take (length sizes.now) result) ≡ true }
{
    let mut indices = [0; 6];
    for k in 0..sizes.len() {
        indices[k] = (sizes[k] - 1) / 2;
    }
    indices
}

/// How far the first simplex reaches in a coordinate of `n` values.
pub(crate) fn width(n: u32) -> u32
    ensures value { result ≡ width n }
    ensures bound { result ≤ n + 1 }
{
    (n / 5).max(1)
}

/// An index that is moved up, but not past the last of `n`.
pub(crate) fn clamped_sum(index: u32, by: u32, n: u32) -> u32
    requires index { index < n }
    requires by { by ≤ n + 1 }
    requires n { n ≤ 65536 }
    ensures { result ≡ min (index + by) (n - 1) }
{
    let to = index + by;
    if to < n - 1 { to } else { n - 1 }
}
