//! A piece cut in two by a form of its level values.

ghost use Rattle.std.specs.Prelude.{◌≡◌, ◌+◌, ◌*◌, ◌≤◌, if◌then◌else◌, pos, length, map, IfOk};
ghost use Rattle.ch_moved.specs.Room.{HasRoom};
ghost use Rattle.ch_cut.specs.Forms.{IsModest};
ghost use Rattle.ch_cut.specs.Parts.{AreHalves, IsHalf, doubled};
ghost use Rattle.ch_space.specs.Keeps.{IsWhole};

use crate::forms::{all_levels, failing, over_levels};
use ch_affine::{Aff, List};
use ch_moved::reindexed;
use ch_pieces::Candidate;
use ch_space::Piece;
use std::alloc::{AllocError, Global};

/// The place, doubled and the number more if it is the one that is cut.
fn doubled_place(place: u32, is_cut: bool, more: u64) -> u64
    requires { more ≤ 1 }
    ensures { result ≡ (if is_cut then place * 2 + more else place) }
{
    if is_cut {
        u64::from(place) * 2 + more
    } else {
        u64::from(place)
    }
}

/// The places with the one before the level doubled, and the number more.
pub(crate) fn doubled(
    alloc: Global,
    places: &[u32],
    level: usize,
    more: u64,
) -> Result<List<u64>, AllocError>
    requires some { 1 ≤ level }
    requires more { more ≤ 1 }
    ensures { IfOk result (λ new. map pos new ≡ doubled level (pos more) (map pos places.now)) }
{
    let mut new = List::with_capacity(alloc, places.len())?;
    for k in 0..places.len() {
        new.push(doubled_place(places[k], k == level - 1, more))?;
    }
    Ok(new)
}

/// The instances of the piece at which the row is at least 0, at these places. How many they are
/// isn't known.
fn half(alloc: Global, piece: &Piece, row: &Aff, places: List<u64>) -> Result<Candidate, AllocError>
    requires whole { IsWhole piece.now }
    requires room { HasRoom 1 piece.now }
    requires short { length row.now.coefs ≤ piece.now.levels }
    ensures { IfOk result (IsHalf piece.now row.now (map pos places)) }
{
    let levels = piece.levels as usize;
    let forms = all_levels(alloc, levels)?;
    let boxes = List::from_slice(alloc, &piece.system.boxes.as_slice()[..levels])?;
    let mut rows = List::new(alloc);
    rows.push(over_levels(alloc, row, levels)?)?;
    let own = List::from_slice(alloc, piece.places.as_slice())?;
    let piece = reindexed(alloc, piece, forms.as_slice(), boxes, rows.as_slice(), own)?;
    Ok(Candidate {
        piece,
        places,
        count: None,
    })
}

/// The instances of the piece at which the form is at least 0, and behind them the others.
pub(crate) fn halves(
    alloc: Global,
    piece: &Piece,
    level: usize,
    form: &Aff,
) -> Result<List<Candidate>, AllocError>
    requires whole { IsWhole piece.now }
    requires room { HasRoom 1 piece.now }
    requires some { 1 ≤ level }
    requires short { length form.now.coefs ≤ piece.now.levels }
    requires modest { IsModest form.now }
    ensures { IfOk result (AreHalves level form.now piece.now) }
{
    let places = piece.places.as_slice();
    let mut halves = List::new(alloc);
    let first = doubled(alloc, places, level, 0)?;
    halves.push(half(alloc, piece, form, first)?)?;
    let second = doubled(alloc, places, level, 1)?;
    let failing = failing(alloc, form)?;
    halves.push(half(alloc, piece, &failing, second)?)?;
    Ok(halves)
}
