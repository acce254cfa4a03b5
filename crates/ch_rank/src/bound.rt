ghost use Rattle.std.specs.Prelude.{◌≡◌, ◌≤◌, ◌<◌, ◌^◌, ◌*◌, max};
ghost use Rattle.ch_grid.specs.Points.{count};
ghost use Rattle.ch_rank.specs.Bound.{greatest, halvings, bound};

/// The greatest size, or 1 where there is no parameter.
fn greatest(sizes: &[u32]) -> u32
    ensures { result ≡ greatest sizes.now }
{
    let mut most = 1;
    for size in sizes {
        most = most.max(*size);
    }
    most
}

/// The least `c` with `n` at most 2^c.
fn halvings(n: u32) -> u32
    requires { n ≤ 65536 }
    ensures value { result ≡ halvings n }
    ensures few { result ≤ 16 }
{
    let mut power = 1;
    for c in 0..16 {
        if n <= power {
            return c;
        }
        power *= 2;
    }
    16
}

/// The most steps of a search on a grid with these sizes.
#[tactic(auto, unfolding(crate::specs::Bound::bound))]
pub(crate) fn bound(sizes: &[u32], points: u32) -> u64
    requires points { points ≡ count sizes.now }
    requires small { points ≤ 65536 }
    requires sizes { greatest sizes.now ≤ 65536 }
    ensures value { result ≡ bound sizes.now }
    ensures small { result < 2 ^ 63 }
{
    let halvings = halvings(greatest(sizes));
    points as u64 * (halvings as u64 + 1)
}
