ghost use Rattle.std.specs.Prelude.{◌≡◌, ◌<◌, ◌≤◌, IsTrue, length};
ghost use Rattle.ch_grid.specs.Points.{count, is_point, number};

/// The flat index of a point, in row-major order, on a grid with this many values in each
/// coordinate. Each point of the grid has an index of its own.
pub fn flat_index(sizes: &[u32], point: &[u32]) -> u32
    requires in_grid { IsTrue (is_point sizes.now point.now) }
    requires small { count sizes.now ≤ 65536 }
    ensures value { result ≡ number sizes.now point.now }
    ensures below { result < count sizes.now }
{
    let mut at: u32 = 0;
    for i in 0..sizes.len() {
        at = at * sizes[i] + point[i];
    }
    at
}
