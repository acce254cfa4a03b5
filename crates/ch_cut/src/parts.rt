//! What a cut loop leaves of each piece.

ghost use Rattle.std.specs.Prelude.{◌≡◌, ◌≤◌, ◌<◌, ◌++◌, ◌∷◌, [], Some};
ghost use Rattle.std.specs.Prelude.{true, pos, length, map, IfOk, OnOk};
ghost use Rattle.ch_moved.specs.Room.{HasRoom};
ghost use Rattle.std.specs.List.{All};
ghost use Rattle.ch_cut.specs.Forms.{IsModest, holds_at};
ghost use Rattle.ch_cut.specs.Parts.{AllParts, AreParts, cut_places};
ghost use Rattle.ch_space.specs.Keeps.{AreApart, IsWhole};
ghost use Rattle.ch_space.specs.Pieces.{instances};

use crate::halves::{doubled, halves};
use ch_affine::{Aff, List};
use ch_moved::groups::beside;
use ch_pieces::{Candidate, wide_places};
use ch_space::copies::copied_piece;
use ch_space::{Piece, share};
use std::alloc::{AllocError, Global};

/// The places of a piece outside the group, doubled where it stands beside the loop.
fn outside_places(
    alloc: Global,
    ours: &[u32],
    theirs: &[u32],
    level: usize,
) -> Result<List<u64>, AllocError>
    requires some { 1 ≤ level }
    requires deep { level ≤ length ours.now }
    ensures { IfOk result (λ new. map pos new
        ≡ cut_places level (map pos ours.now) true (map pos theirs.now)) }
{
    if beside(level, ours, theirs) {
        return doubled(alloc, theirs, level, 0);
    }
    wide_places(alloc, theirs)
}

/// The piece at other places, alone.
fn replaced(
    alloc: Global,
    piece: &Piece,
    count: u64,
    places: List<u64>,
) -> Result<List<Candidate>, AllocError>
    ensures { IfOk result (λ cs.
        cs ≡ record { piece = piece.now; places = places; count = Some count } ∷ []) }
{
    let mut candidates = List::new(alloc);
    candidates.push(Candidate {
        piece: copied_piece(alloc, piece)?,
        places,
        count: Some(count),
    })?;
    Ok(candidates)
}

/// What the piece becomes where the loop of the level around our places is cut. Outside that loop
/// only its places change.
fn parts(
    alloc: Global,
    piece: &Piece,
    count: u64,
    ours: &[u32],
    level: usize,
    form: &Aff,
) -> Result<List<Candidate>, AllocError>
    requires whole { IsWhole piece.now }
    requires room { HasRoom 1 piece.now }
    requires count { count ≡ length (instances piece.now) }
    requires some { 1 ≤ level }
    requires deep { level ≤ length ours.now }
    requires short { length form.now.coefs ≤ level }
    requires modest { IsModest form.now }
    ensures { IfOk result (AreParts level (map pos ours.now) (holds_at form.now) piece.now) }
{
    let theirs = piece.places.as_slice();
    if share(level, ours, theirs) {
        return halves(alloc, piece, level, form);
    }
    let places = outside_places(alloc, ours, theirs, level)?;
    replaced(alloc, piece, count, places)
}

fn append(candidates: &mut List<Candidate>, more: List<Candidate>) -> Result<(), AllocError>
    ensures { OnOk result (candidates.new ≡ candidates.old ++ more) }
{
    for candidate in more.into_vec() {
        candidates.push(candidate)?;
    }
    Ok(())
}

/// What all pieces become.
pub(crate) fn all_parts(
    alloc: Global,
    pieces: &[Piece],
    counts: &[u64],
    ours: &[u32],
    level: usize,
    form: &Aff,
) -> Result<List<Candidate>, AllocError>
    requires apart { AreApart pieces.now }
    requires room { All (HasRoom 1) pieces.now }
    requires counts { counts.now ≡ map (λ p. length (instances p)) pieces.now }
    requires some { 1 ≤ level }
    requires deep { level ≤ length ours.now }
    requires short { length form.now.coefs ≤ level }
    requires modest { IsModest form.now }
    ensures { IfOk result (AllParts level (map pos ours.now) (holds_at form.now) pieces.now) }
{
    let mut candidates = List::new(alloc);
    for k in 0..pieces.len() {
        let more = parts(alloc, &pieces[k], counts[k], ours, level, form)?;
        append(&mut candidates, more)?;
    }
    Ok(candidates)
}
