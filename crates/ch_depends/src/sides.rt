//! What is found out once of each piece of a list, before pairs of pieces are asked about.

ghost use Rattle.std.specs.Prelude.{◌≡◌, map, IfOk, IsTrue, ◌↔◌};
ghost use Rattle.std.specs.List.{All};
ghost use Rattle.std.proofs.Common.{◌⊎◌};
ghost use Rattle.ch_depends.specs.Sought.{AreNumbered, IsPaired, IsSide, StandForReads};
ghost use Rattle.ch_meeting.specs.Meeting.{HaveCommon, IsAccessOf, IsPlain};
ghost use Rattle.ch_space.specs.Keeps.{accesses};
ghost use Rattle.ch_timed.specs.Members.{In};

use crate::cells::reads;
use ch_affine::List;
use ch_meeting::have_common;
use ch_nest::{Access, Body};
use ch_order::same_access;
use ch_space::Piece;
use ch_timed::Label;
use std::alloc::{AllocError, Global};

/// A piece with its number in its list, the accesses that its body reads besides the one that it
/// writes, each once, and the pieces of another list that have its elements.
#[derive(Drop)]
pub(crate) struct Side<'a> {
    pub(crate) number: usize,
    pub(crate) piece: &'a Piece,
    pub(crate) reads: List<&'a Access>,
    pub(crate) partners: List<&'a Piece>,
}

/// Whether it is one of the accesses.
fn has_access(access: &Access, others: &[&Access]) -> bool
    ensures { IsTrue result → In access.now (map (λ a. a.now) others.now) }
{
    for other in others {
        if same_access(access, other) {
            return true;
        }
    }
    false
}

/// Whether it is the write or one of the reads.
fn is_known(access: &Access, write: &Access, reads: &[&Access]) -> bool
    ensures { IsTrue result → (access.now ≡ write.now)
        ⊎ In access.now (map (λ a. a.now) reads.now) }
{
    same_access(access, write) || has_access(access, reads)
}

/// The accesses that a body reads besides the one that it writes, each once: an accumulation's read
/// of its own cell conflicts where its write does.
fn other_reads<'a>(alloc: Global, body: &'a Body) -> Result<List<&'a Access>, AllocError>
    ensures { IfOk result (λ found. StandForReads body.now (map (λ a. a.now) found)) }
{
    let all = reads(alloc, &body.right)?;
    let mut found = List::new(alloc);
    for access in all.as_slice() {
        if !is_known(access, &body.write, found.as_slice()) {
            found.push(*access)?;
        }
    }
    Ok(found)
}

fn has_label(piece: &Piece, label: Label) -> bool
    ensures { IsTrue result ↔ (piece.now.label ≡ label) }
{
    piece.label == label
}

/// The pieces of a label.
fn labelled<'a>(
    alloc: Global,
    label: Label,
    pieces: &'a [Piece],
) -> Result<List<&'a Piece>, AllocError>
    requires { All IsPlain pieces.now }
    ensures plain { IfOk result (λ found. All IsPlain (map (λ r. r.now) found)) }
    ensures exactly { IfOk result (λ found. (r : Piece)
        → In r (map (λ r. r.now) found) ↔ (In r pieces.now × (r.label ≡ label))) }
{
    let mut found = List::new(alloc);
    for piece in pieces {
        if has_label(piece, label) {
            found.push(piece)?;
        }
    }
    Ok(found)
}

/// Those of some pieces that have elements of the piece.
fn with_common<'a>(
    alloc: Global,
    piece: &Piece,
    others: &[&'a Piece],
) -> Result<List<&'a Piece>, AllocError>
    requires piece { IsPlain piece.now }
    requires others { All IsPlain (map (λ r. r.now) others.now) }
    ensures plain { IfOk result (λ found. All IsPlain (map (λ r. r.now) found)) }
    ensures exactly { IfOk result (λ found. (r : Piece) → In r (map (λ r. r.now) found)
        ↔ (In r (map (λ r. r.now) others.now) × HaveCommon piece.now r)) }
{
    let mut found = List::new(alloc);
    for other in others {
        if have_common(alloc, piece, other)? {
            found.push(*other)?;
        }
    }
    Ok(found)
}

/// The pieces of the new list that have elements of the piece. Where one piece alone has the label,
/// there is nothing to ask.
fn partners<'a>(
    alloc: Global,
    piece: &Piece,
    news: &'a [Piece],
) -> Result<List<&'a Piece>, AllocError>
    requires piece { IsPlain piece.now }
    requires news { All IsPlain news.now }
    ensures plain { IfOk result (λ found. All IsPlain (map (λ r. r.now) found)) }
    ensures among { IfOk result (λ found. (r : Piece) → In r (map (λ r. r.now) found)
        → In r news.now × (r.label ≡ piece.now.label)) }
    ensures all { IfOk result (λ found. (r : Piece) → In r news.now
        → r.label ≡ piece.now.label → HaveCommon piece.now r → In r (map (λ r. r.now) found)) }
{
    let same = labelled(alloc, piece.label, news)?;
    if same.len() <= 1 {
        return Ok(same);
    }
    with_common(alloc, piece, same.as_slice())
}

fn side_of<'a>(
    alloc: Global,
    number: usize,
    piece: &'a Piece,
    news: &'a [Piece],
) -> Result<Side<'a>, AllocError>
    requires piece { IsPlain piece.now }
    requires accesses { All (IsAccessOf piece.now) (accesses piece.now.body) }
    requires news { All IsPlain news.now }
    ensures number { IfOk result (λ side. side.number ≡ number) }
    ensures piece { IfOk result (λ side. side.piece.now ≡ piece.now) }
    ensures side { IfOk result IsSide }
    ensures paired { IfOk result (IsPaired news.now) }
{
    let reads = other_reads(alloc, &piece.body)?;
    let partners = partners(alloc, piece, news)?;
    Ok(Side {
        number,
        piece,
        reads,
        partners,
    })
}

/// A side for each piece of a list, where `news` is the other list.
pub(crate) fn all_sides<'a>(
    alloc: Global,
    olds: &'a [Piece],
    news: &'a [Piece],
) -> Result<List<Side<'a>>, AllocError>
    requires olds { All IsPlain olds.now }
    requires accesses { All (λ p. All (IsAccessOf p) (accesses p.body)) olds.now }
    requires news { All IsPlain news.now }
    ensures pieces { IfOk result (λ sides. map (λ s. s.piece.now) sides ≡ olds.now) }
    ensures numbered { IfOk result AreNumbered }
    ensures each { IfOk result (All IsSide) }
    ensures paired { IfOk result (All (IsPaired news.now)) }
{
    let mut sides = List::with_capacity(alloc, olds.len())?;
    for piece in olds {
        let number = sides.len();
        sides.push(side_of(alloc, number, piece, news)?)?;
    }
    Ok(sides)
}
