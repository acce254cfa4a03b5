//! Where pieces stand once moves stand around a loop.

ghost use Rattle.std.specs.Prelude.{◌≡◌, ◌≤◌, ◌<◌, ◌+◌, ◌*◌, ◌^◌, ◌++◌, ◌∷◌, pos, length, map, replicate, slice_index_or, take, IfOk};
ghost use Rattle.ch_copied.specs.Copied.{placed};
ghost use Rattle.ch_datacopy.specs.Spreads.{spread_by};

use ch_affine::List;
use ch_pieces::wide_places;
use std::alloc::{AllocError, Global};

/// The loops beside one get so many places each, and the loop itself stands so far behind the first
/// of its own.
#[derive(Clone, Copy, Debug)]
pub(crate) struct Spread {
    pub(crate) width: u64,
    pub(crate) offset: u64,
}

/// The places of a piece, spread where it stands beside the loop behind so many places of ours, or
/// in it.
pub(crate) fn spread_places(
    alloc: Global,
    spread: Spread,
    ours: &[u32],
    around: usize,
    theirs: &[u32],
) -> Result<List<u64>, AllocError>
    requires deep { around < length ours.now }
    requires width { spread.width ≤ 2 ^ 20 }
    requires offset { spread.offset ≤ 2 ^ 20 }
    ensures { IfOk result (λ wide. map pos wide
        ≡ placed (spread_by spread (slice_index_or ours.now around 0))
        (take around (map pos ours.now)) (map pos theirs.now)) }
{
    let mut wide = wide_places(alloc, theirs)?;
    if around < theirs.len() && ours[..around] == theirs[..around] {
        let is_loop = theirs[around] == ours[around];
        let offset = if is_loop { spread.offset } else { 0 };
        wide.as_mut_slice()[around] = u64::from(theirs[around]) * spread.width + offset;
    }
    Ok(wide)
}

/// The places of a move: those around the loop, its own so far behind the first of the loop's, and
/// 0 for each subscript.
pub(crate) fn move_places(
    alloc: Global,
    width: u64,
    ours: &[u32],
    around: usize,
    place: u64,
    cells: usize,
) -> Result<List<u64>, AllocError>
    requires deep { around < length ours.now }
    requires width { width ≤ 2 ^ 20 }
    requires place { place ≤ 2 ^ 20 }
    ensures { IfOk result (λ wide. wide ≡ take around ours.now
        ++ (slice_index_or ours.now around 0 * width + place) ∷ replicate cells 0) }
{
    let mut places = wide_places(alloc, &ours[..around])?;
    places.push(u64::from(ours[around]) * width + place)?;
    for _k in 0..cells {
        places.push(0)?;
    }
    Ok(places)
}
