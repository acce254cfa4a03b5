//! The pieces of a list with a buffer, before they are put in order.

ghost use Rattle.std.specs.Prelude.{◌≡◌, ◌≤◌, ◌<◌, ◌+◌, ◌^◌, if◌then◌else◌, length, map, IfOk, OnOk};
ghost use Rattle.std.specs.List.{All};
ghost use Rattle.ch_copied.specs.Bodies.{redirected};
ghost use Rattle.ch_copied.specs.Plans.{Plan};
ghost use Rattle.ch_datacopy.specs.Targets.{IsTarget};
ghost use Rattle.ch_datacopy.specs.Works.{AddsMoved, AreKept, IsKept, IsMoved, IsWork, move_body};
ghost use Rattle.ch_space.specs.Built.{units};
ghost use Rattle.ch_space.specs.Pieces.{instances};

use crate::cells::Cells;
use crate::places::{Spread, move_places, spread_places};
use crate::redirect::{Target, in_body, out_body, redirected};
use ch_affine::{Aff, List, copied_forms};
use ch_moved::units::unit;
use ch_nest::Body;
use ch_pieces::Candidate;
use ch_space::copies::copied_body;
use ch_space::{Piece, share};
use ch_timed::Label;
use std::alloc::{AllocError, Global};

/// What is copied: the loop behind so many others works on the buffer, `ins` moves stand before it
/// and `outs` behind it.
#[derive(Clone, Copy, Debug)]
pub(crate) struct Work {
    pub(crate) around: usize,
    pub(crate) target: Target,
    pub(crate) ins: u32,
    pub(crate) outs: u32,
    pub(crate) label: u32,
}

impl Work {
    /// How many places the loop takes with its moves.
    fn width(self) -> u64
        ensures { result ≡ self.ins + self.outs + 1 }
    {
        u64::from(self.ins) + u64::from(self.outs) + 1
    }
}

/// The forms of so many variables.
fn units(alloc: Global, count: usize) -> Result<List<Aff>, AllocError>
    requires { count ≤ 4096 }
    ensures { IfOk result (λ forms. forms ≡ units 0 count) }
{
    let mut forms = List::with_capacity(alloc, count)?;
    for k in 0..count {
        forms.push(unit(alloc, k, count - 1 - k)?)?;
    }
    Ok(forms)
}

/// The piece's body, on the buffer if the piece is one of the loop's.
fn kept_body(
    alloc: Global,
    work: Work,
    extents: &[u32],
    is_ours: bool,
    body: &Body,
) -> Result<Body, AllocError>
    ensures { (p : Plan) → IsTarget work.target extents.now p
        → IfOk result (λ new. new ≡ (if is_ours then redirected p body.now else body.now)) }
{
    if is_ours {
        redirected(alloc, work.target, extents, body)
    } else {
        copied_body(alloc, body)
    }
}

/// What becomes of a piece with so many instances.
fn kept(
    alloc: Global,
    work: Work,
    ours: &[u32],
    extents: &[u32],
    piece: &Piece,
    count: u64,
) -> Result<Candidate, AllocError>
    requires deep { work.around < length ours.now }
    requires few { work.ins + work.outs < 2 ^ 16 }
    ensures { (p : Plan) → IsWork work ours.now extents.now p → count ≡ length (instances piece.now)
        → IfOk result (IsKept p piece.now) }
{
    let places = piece.places.as_slice();
    let is_ours = share(work.around + 1, ours, places);
    let spread = Spread {
        width: work.width(),
        offset: u64::from(work.ins),
    };
    let wide = spread_places(alloc, spread, ours, work.around, places)?;
    let kept = Piece {
        label: piece.label,
        body: kept_body(alloc, work, extents, is_ours, &piece.body)?,
        levels: piece.levels,
        hidden: piece.hidden,
        system: piece.system.copied(alloc)?,
        origin: copied_forms(alloc, piece.origin.as_slice())?,
        places: List::from_slice(alloc, places)?,
    };
    Ok(Candidate {
        piece: kept,
        places: wide,
        count: Some(count),
    })
}

/// What becomes of the pieces with these counts.
pub(crate) fn all_kept(
    alloc: Global,
    work: Work,
    ours: &[u32],
    extents: &[u32],
    pieces: &[Piece],
    counts: &[u64],
) -> Result<List<Candidate>, AllocError>
    requires deep { work.around < length ours.now }
    requires few { work.ins + work.outs < 2 ^ 16 }
    requires counted { counts.now ≡ map (λ p. length (instances p)) pieces.now }
    ensures { (p : Plan) → IsWork work ours.now extents.now p
        → IfOk result (AreKept p pieces.now) }
{
    let mut candidates = List::with_capacity(alloc, pieces.len())?;
    for k in 0..pieces.len() {
        let piece = &pieces[k];
        candidates.push(kept(alloc, work, ours, extents, piece, counts[k])?)?;
    }
    Ok(candidates)
}

/// The body of move `k`.
fn move_body(alloc: Global, work: Work, extents: &[u32], k: u32) -> Result<Body, AllocError>
    requires { work.around + length extents.now ≤ 4096 }
    ensures { (p : Plan) → IsTarget work.target extents.now p → p.around ≡ work.around
        → length p.ins ≡ work.ins → IfOk result (λ body. body ≡ move_body p k) }
{
    if k < work.ins {
        in_body(alloc, work.target, extents, work.around)
    } else {
        out_body(alloc, work.target, extents, work.around)
    }
}

/// Move `k`, of these cells.
fn moved(
    alloc: Global,
    work: Work,
    ours: &[u32],
    extents: &[u32],
    k: u32,
    cells: Cells,
) -> Result<Candidate, AllocError>
    requires deep { work.around < length ours.now }
    requires few { work.ins + work.outs < 2 ^ 16 }
    requires k { k < work.ins + work.outs }
    requires label { work.label < 2 ^ 20 }
    requires levels { cells.levels ≡ work.around + length extents.now }
    requires room { cells.levels ≤ 4096 }
    ensures { (p : Plan) → IsWork work ours.now extents.now p
        → IfOk result (IsMoved p k cells) }
{
    let body = move_body(alloc, work, extents, k)?;
    let place = if k < work.ins { k } else { k + 1 };
    let places = move_places(
        alloc,
        work.width(),
        ours,
        work.around,
        u64::from(place),
        extents.len(),
    )?;
    let origin = units(alloc, cells.levels as usize)?;
    let Cells {
        levels,
        hidden,
        system,
    } = cells;
    let piece = Piece {
        label: Label::Move(work.label + k),
        body,
        levels,
        hidden,
        system,
        origin,
        places: List::new(alloc),
    };
    Ok(Candidate {
        piece,
        places,
        count: None,
    })
}

/// Adds a move for each of these cells.
pub(crate) fn push_moves(
    alloc: Global,
    candidates: &mut List<Candidate>,
    work: Work,
    ours: &[u32],
    extents: &[u32],
    all: List<Cells>,
) -> Result<(), AllocError>
    requires deep { work.around < length ours.now }
    requires few { work.ins + work.outs < 2 ^ 16 }
    requires count { length all ≡ work.ins + work.outs }
    requires label { work.label < 2 ^ 20 }
    requires levels { All (λ u. u.levels ≡ work.around + length extents.now) all }
    requires room { work.around + length extents.now ≤ 4096 }
    ensures { (p : Plan) → IsWork work ours.now extents.now p
        → OnOk result (AddsMoved p all candidates.old candidates.new) }
{
    let mut k = 0;
    for cells in all.into_vec() {
        candidates.push(moved(alloc, work, ours, extents, k, cells)?)?;
        k += 1;
    }
    Ok(())
}
