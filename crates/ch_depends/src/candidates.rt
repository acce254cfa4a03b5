//! The least pair of elements that conflict and that another list has the other way round.

ghost use Rattle.std.specs.Prelude.{◌≡◌, ℕ, false, map, IfOk};
ghost use Rattle.std.specs.List.{All};
ghost use Rattle.ch_depends.specs.Sought.{Conflicts, IsBest, IsSide, Kept, Meets};
ghost use Rattle.ch_depends.specs.Sought.{Reversed, ReversesBy, SomeOf, is_listed};
ghost use Rattle.ch_depends.specs.Sought.{is_pair, lesser, pair_order, partners_of};
ghost use Rattle.ch_meeting.specs.Meeting.{AreAccessesOf, ArePlain, IsAccessOf, IsPlain};
ghost use Rattle.ch_space.specs.Pieces.{element_at, instances};
ghost use Rattle.ch_timed.specs.Members.{In};

use crate::answers::PiecePair;
use crate::elements::element_at;
use crate::levels::depend;
use crate::sides::Side;
use ch_meeting::{FourPieces, TwoAccesses, least_reversal};
use ch_nest::Access;
use ch_space::Piece;
use ch_timed::Element;
use std::alloc::{AllocError, Global};
use std::cmp::Ordering;

/// An element, and a later one that conflicts with it.
#[derive(Debug, Drop)]
pub(crate) struct Candidate {
    pub(crate) first: Element,
    pub(crate) second: Element,
}

fn pair_order(a: &Candidate, b: &Candidate) -> Ordering
    ensures { result ≡ pair_order a.now b.now }
{
    let firsts = a.first.vector.as_slice().cmp(b.first.vector.as_slice());
    firsts.then(a.second.vector.as_slice().cmp(b.second.vector.as_slice()))
}

/// The one that comes first.
fn lesser(first: Option<Candidate>, second: Option<Candidate>) -> Option<Candidate>
    ensures { result ≡ lesser first second }
{
    match (first, second) {
        (None, second) => second,
        (first, None) => first,
        (Some(first), Some(second)) => {
            if pair_order(&second, &first).is_lt() {
                Some(second)
            } else {
                Some(first)
            }
        }
    }
}

fn candidate_at(
    alloc: Global,
    p: &Piece,
    q: &Piece,
    xs: &[i64],
    ys: &[i64],
) -> Result<Candidate, AllocError>
    requires p { IsPlain p.now }
    requires q { IsPlain q.now }
    requires xs { In xs.now (instances p.now) }
    requires ys { In ys.now (instances q.now) }
    ensures first { IfOk result (λ c. c.first ≡ element_at p.now xs.now) }
    ensures second { IfOk result (λ c. c.second ≡ element_at q.now ys.now) }
{
    let first = element_at(alloc, p, xs)?;
    let second = element_at(alloc, q, ys)?;
    Ok(Candidate { first, second })
}

/// The least pair that two accesses make conflict and that the new pieces have the other way round.
fn least_by(
    alloc: Global,
    pieces: &FourPieces,
    accesses: &TwoAccesses,
) -> Result<Option<Candidate>, AllocError>
    requires pieces { ArePlain pieces.now }
    requires accesses { AreAccessesOf pieces.now.first.now pieces.now.second.now accesses.now }
    ensures { IfOk result (IsBest (ReversesBy pieces.now accesses.now.first.now
        accesses.now.second.now)) }
{
    match least_reversal(alloc, pieces, accesses)? {
        None => Ok(None),
        Some(point) => {
            let (xs, ys) = point.as_slice().split_at(pieces.first.levels as usize);
            Ok(Some(candidate_at(alloc, pieces.first, pieces.second, xs, ys)?))
        }
    }
}

/// The same over the write of the first piece and each of some reads of the second.
fn least_with_reads(
    alloc: Global,
    pieces: &FourPieces,
    others: &[&Access],
) -> Result<Option<Candidate>, AllocError>
    requires pieces { ArePlain pieces.now }
    requires access { IsAccessOf pieces.now.first.now pieces.now.first.now.body.write }
    requires others { All (IsAccessOf pieces.now.second.now) (map (λ a. a.now) others.now) }
    ensures { IfOk result (IsBest (SomeOf (map (λ a. a.now) others.now)
        (ReversesBy pieces.now pieces.now.first.now.body.write))) }
{
    let first = &pieces.first.body.write;
    let mut best = None;
    for other in others {
        let accesses = TwoAccesses {
            first,
            second: *other,
        };
        best = lesser(best, least_by(alloc, pieces, &accesses)?);
    }
    Ok(best)
}

/// The same over each of some reads of the first piece and the write of the second.
fn least_with_write(
    alloc: Global,
    pieces: &FourPieces,
    reads: &[&Access],
) -> Result<Option<Candidate>, AllocError>
    requires pieces { ArePlain pieces.now }
    requires reads { All (IsAccessOf pieces.now.first.now) (map (λ a. a.now) reads.now) }
    requires other { IsAccessOf pieces.now.second.now pieces.now.second.now.body.write }
    ensures { IfOk result (IsBest (SomeOf (map (λ a. a.now) reads.now)
        (λ a. ReversesBy pieces.now a pieces.now.second.now.body.write))) }
{
    let second = &pieces.second.body.write;
    let mut best = None;
    for access in reads {
        let accesses = TwoAccesses {
            first: *access,
            second,
        };
        best = lesser(best, least_by(alloc, pieces, &accesses)?);
    }
    Ok(best)
}

/// The same over both writes.
fn least_with_writes(alloc: Global, pieces: &FourPieces) -> Result<Option<Candidate>, AllocError>
    requires pieces { ArePlain pieces.now }
    requires access { IsAccessOf pieces.now.first.now pieces.now.first.now.body.write }
    requires other { IsAccessOf pieces.now.second.now pieces.now.second.now.body.write }
    ensures { IfOk result (IsBest (ReversesBy pieces.now pieces.now.first.now.body.write
        pieces.now.second.now.body.write)) }
{
    let accesses = TwoAccesses {
        first: &pieces.first.body.write,
        second: &pieces.second.body.write,
    };
    least_by(alloc, pieces, &accesses)
}

/// The same over all accesses of which one is a write.
fn least_between(
    alloc: Global,
    from: &Side,
    to: &Side,
    r: &Piece,
    s: &Piece,
) -> Result<Option<Candidate>, AllocError>
    requires from { IsSide from.now }
    requires to { IsSide to.now }
    requires r { IsPlain r.now }
    requires s { IsPlain s.now }
    ensures { IfOk result (IsBest (Conflicts from.now.piece.now to.now.piece.now r.now s.now)) }
{
    let pieces = FourPieces {
        first: from.piece,
        second: to.piece,
        new_first: r,
        new_second: s,
    };
    let both = least_with_writes(alloc, &pieces)?;
    let later = least_with_reads(alloc, &pieces, to.reads.as_slice())?;
    let earlier = least_with_write(alloc, &pieces, from.reads.as_slice())?;
    Ok(lesser(lesser(both, later), earlier))
}

/// The same over the second side's partners.
fn least_after(
    alloc: Global,
    from: &Side,
    to: &Side,
    r: &Piece,
) -> Result<Option<Candidate>, AllocError>
    requires from { IsSide from.now }
    requires to { IsSide to.now }
    requires r { IsPlain r.now }
    ensures { IfOk result (IsBest (SomeOf (partners_of to.now)
        (Conflicts from.now.piece.now to.now.piece.now r.now))) }
{
    let mut best = None;
    for s in to.partners.as_slice() {
        best = lesser(best, least_between(alloc, from, to, r, s)?);
    }
    Ok(best)
}

/// Whether the partners of two sides are to be asked about: not where no elements of the sides
/// conflict. Where each side has one partner, that is asked with the partners at once.
fn may_depend(alloc: Global, from: &Side, to: &Side) -> Result<bool, AllocError>
    requires from { IsSide from.now }
    requires to { IsSide to.now }
    ensures { IfOk result (λ answer. answer ≡ false → (level : ℕ)
        → Meets from.now.piece.now to.now.piece.now level → ⊥) }
{
    if from.partners.len() <= 1 && to.partners.len() <= 1 {
        return Ok(true);
    }
    depend(alloc, from, to)
}

/// The least pair of elements of two sides that some of their partners have the other way round.
fn least_of_sides(alloc: Global, from: &Side, to: &Side) -> Result<Option<Candidate>, AllocError>
    requires from { IsSide from.now }
    requires to { IsSide to.now }
    ensures { IfOk result (IsBest (Reversed from.now to.now)) }
{
    // Most pairs of pieces have nothing to reverse, which takes much less asking than each pair of
    // partners does.
    if !may_depend(alloc, from, to)? {
        return Ok(None);
    }
    let mut best = None;
    for r in from.partners.as_slice() {
        best = lesser(best, least_after(alloc, from, to, r)?);
    }
    Ok(best)
}

/// Whether a pair is of these two pieces, in either order.
fn is_pair(pair: &PiecePair, one: usize, other: usize) -> bool
    ensures { result ≡ is_pair one other pair.now }
{
    (pair.one as usize == one && pair.other as usize == other)
        || (pair.other as usize == one && pair.one as usize == other)
}

/// Whether two pieces are a listed pair, in either order.
fn is_listed(free: &[PiecePair], one: usize, other: usize) -> bool
    ensures { result ≡ is_listed free.now one other }
{
    free.iter().any(|pair| is_pair(pair, one, other))
}

/// The same where the sides' pieces are no listed pair; None where they are one.
fn least_unless_free(
    alloc: Global,
    from: &Side,
    to: &Side,
    free: &[PiecePair],
) -> Result<Option<Candidate>, AllocError>
    requires from { IsSide from.now }
    requires to { IsSide to.now }
    ensures { IfOk result (IsBest (Kept free.now from.now to.now)) }
{
    if is_listed(free, from.number, to.number) {
        return Ok(None);
    }
    least_of_sides(alloc, from, to)
}

/// The same over all second sides.
fn least_from(
    alloc: Global,
    from: &Side,
    sides: &[Side],
    free: &[PiecePair],
) -> Result<Option<Candidate>, AllocError>
    requires from { IsSide from.now }
    requires sides { All IsSide sides.now }
    ensures { IfOk result (IsBest (SomeOf sides.now (Kept free.now from.now))) }
{
    let mut best = None;
    for to in sides {
        best = lesser(best, least_unless_free(alloc, from, to, free)?);
    }
    Ok(best)
}

/// The least pair of elements of any two sides that are no listed pair, which some of their
/// partners have the other way round.
pub(crate) fn least(
    alloc: Global,
    sides: &[Side],
    free: &[PiecePair],
) -> Result<Option<Candidate>, AllocError>
    requires { All IsSide sides.now }
    ensures { IfOk result (IsBest (SomeOf sides.now (λ s. SomeOf sides.now (Kept free.now s)))) }
{
    let mut best = None;
    for from in sides {
        best = lesser(best, least_from(alloc, from, sides, free)?);
    }
    Ok(best)
}
