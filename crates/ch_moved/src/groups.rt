//! Pieces by the levels that they share.

ghost use Rattle.std.specs.Prelude.{◌≡◌, ◌<◌, ◌≤◌, pos, length, map};
ghost use Rattle.ch_moved.specs.Arguments.{beside};
ghost use Rattle.ch_timed.specs.Groups.{in_group, piece};
ghost use Rattle.ch_timed.specs.Timed.{pieces};

use ch_space::{Space, places, share};

/// Whether the other piece is in the group of the piece at that level: whether they share it.
pub fn in_group(space: &Space, number: u32, level: usize, other: u32) -> bool
    requires number { number < length (pieces space.now.list) }
    requires other { other < length (pieces space.now.list) }
    ensures { result ≡ in_group space.now.list number level (piece space.now.list other) }
{
    share(level, places(space, number), places(space, other))
}

/// Whether a piece at the other places stands beside the loop of that level around ours, or in it.
pub fn beside(level: usize, ours: &[u32], theirs: &[u32]) -> bool
    requires some { 1 ≤ level }
    requires deep { level ≤ length ours.now }
    ensures { result ≡ beside level (map pos ours.now) (map pos theirs.now) }
{
    level <= theirs.len() && ours[..level - 1] == theirs[..level - 1]
}
