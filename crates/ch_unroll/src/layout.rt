//! Where the copies of a loop's body stand.

ghost use Rattle.std.specs.Prelude.{◌≡◌, ◌-◌, ◌<◌, ◌≤◌, ◌^◌, pos, length, map};
ghost use Rattle.std.specs.List.{list_all};
ghost use Rattle.ch_space.specs.Keeps.{places_of};
ghost use Rattle.ch_timed.specs.Vectors.{shares};
ghost use Rattle.ch_unroll.specs.Layouts.{IsLaidOut, sharing, width_at};
ghost use Rattle.ch_unroll.specs.Unrolled.{deepest_shared};

use ch_space::{Piece, share};

/// How the copies of a loop's body are laid out.
#[derive(Clone, Copy, Debug)]
pub(crate) struct Layout {
    /// The level that is unrolled, from 1.
    pub(crate) level: usize,
    /// The level behind whose place the copies stand.
    pub(crate) behind: usize,
    /// How many places one copy takes there.
    pub(crate) width: u64,
    /// How many copies there are.
    pub(crate) amount: u32,
}

/// Whether all pieces that share the one level with these places share the deeper one too.
fn all_share(pieces: &[Piece], ours: &[u32], level: usize, deeper: usize) -> bool
    ensures { result ≡ list_all (shares deeper (map pos ours.now))
        (sharing level (map pos ours.now) (map places_of pieces.now)) }
{
    for piece in pieces {
        let places = piece.places.as_slice();
        if share(level, ours, places) && !share(deeper, ours, places) {
            return false;
        }
    }
    true
}

/// The deepest level that all pieces which share this one with these places share.
fn deepest_shared(pieces: &[Piece], ours: &[u32], level: usize) -> usize
    requires { level < length ours.now }
    ensures { result ≡ deepest_shared (length ours.now - 1 - level) level (map pos ours.now)
        (sharing level (map pos ours.now) (map places_of pieces.now)) }
{
    let mut deepest = ours.len() - 1;
    while level < deepest && !all_share(pieces, ours, level, deepest) {
        deepest -= 1;
    }
    deepest
}

/// How many places the pieces that share the level with these places take there.
fn width_at(pieces: &[Piece], ours: &[u32], level: usize) -> u64
    ensures value { pos result
        ≡ width_at level (sharing level (map pos ours.now) (map places_of pieces.now)) }
    ensures near { result ≤ 2 ^ 32 }
{
    let mut greatest = 0;
    for piece in pieces {
        let places = piece.places.as_slice();
        if share(level, ours, places) {
            greatest = places[level].max(greatest);
        }
    }
    u64::from(greatest) + 1
}

/// Where so many copies of the loop of that level around these places stand.
pub(crate) fn laid_out(pieces: &[Piece], ours: &[u32], level: usize, amount: u32) -> Layout
    requires { level < length ours.now }
    ensures { IsLaidOut (map places_of pieces.now) (map pos ours.now) level amount result }
{
    let behind = deepest_shared(pieces, ours, level);
    Layout {
        level,
        behind,
        width: width_at(pieces, ours, behind),
        amount,
    }
}
