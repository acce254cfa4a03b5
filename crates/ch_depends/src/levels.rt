//! Which pieces depend on one another at which level.

ghost use Rattle.std.specs.Prelude.{ℕ, ◌+◌, ◌<◌, ◌≤◌, map, length, IfOk, OnOk, IsTrue, ◌↔◌};
ghost use Rattle.std.specs.List.{All};
ghost use Rattle.ch_depends.specs.declared.answers.Level.{Level};
ghost use Rattle.ch_depends.specs.Depends.{Ascends, IsDependence};
ghost use Rattle.ch_depends.specs.Sought.{IsMet, IsSide, Lists, Meets, MetBefore};
ghost use Rattle.ch_meeting.specs.Meeting.{IsAccessOf, IsPlain, MeetsAt};
ghost use Rattle.ch_nest.specs.declared.nest.Access.{Access};
ghost use Rattle.ch_timed.specs.Members.{In};

use crate::answers::Level;
use crate::sides::{Side, all_sides};
use ch_affine::List;
use ch_meeting::{TwoAccesses, meets_at};
use ch_nest::Access;
use ch_space::{Piece, Space};
use std::alloc::{AllocError, Global};

/// Whether the write of `p` and one of some reads of `q` meet.
fn write_meets(
    alloc: Global,
    p: &Piece,
    q: &Piece,
    others: &[&Access],
    level: u32,
) -> Result<bool, AllocError>
    requires p { IsPlain p.now }
    requires q { IsPlain q.now }
    requires access { IsAccessOf p.now p.now.body.write }
    requires others { All (IsAccessOf q.now) (map (λ a. a.now) others.now) }
    ensures { IfOk result (λ answer. IsTrue answer
        ↔ ((a : Access) × (In a (map (λ a. a.now) others.now)
        × MeetsAt p.now q.now p.now.body.write a level))) }
{
    let first = &p.body.write;
    for other in others {
        let accesses = TwoAccesses {
            first,
            second: *other,
        };
        if meets_at(alloc, p, q, &accesses, level)? {
            return Ok(true);
        }
    }
    Ok(false)
}

/// Whether one of some reads of `p` and the write of `q` meet.
fn read_meets(
    alloc: Global,
    p: &Piece,
    q: &Piece,
    reads: &[&Access],
    level: u32,
) -> Result<bool, AllocError>
    requires p { IsPlain p.now }
    requires q { IsPlain q.now }
    requires reads { All (IsAccessOf p.now) (map (λ a. a.now) reads.now) }
    requires other { IsAccessOf q.now q.now.body.write }
    ensures { IfOk result (λ answer. IsTrue answer
        ↔ ((a : Access) × (In a (map (λ a. a.now) reads.now)
        × MeetsAt p.now q.now a q.now.body.write level))) }
{
    let second = &q.body.write;
    for access in reads {
        let accesses = TwoAccesses {
            first: *access,
            second,
        };
        if meets_at(alloc, p, q, &accesses, level)? {
            return Ok(true);
        }
    }
    Ok(false)
}

/// Whether an element of the first side and a later one of the second conflict, their vectors
/// differing first at that level.
fn depend_at(alloc: Global, from: &Side, to: &Side, level: u32) -> Result<bool, AllocError>
    requires from { IsSide from.now }
    requires to { IsSide to.now }
    ensures { IfOk result (λ answer. IsTrue answer
        ↔ Meets from.now.piece.now to.now.piece.now level) }
{
    let p = from.piece;
    let q = to.piece;
    let writes = TwoAccesses {
        first: &p.body.write,
        second: &q.body.write,
    };
    if meets_at(alloc, p, q, &writes, level)? {
        return Ok(true);
    }
    if write_meets(alloc, p, q, to.reads.as_slice(), level)? {
        return Ok(true);
    }
    read_meets(alloc, p, q, from.reads.as_slice(), level)
}

/// Whether an element of the first side and a later one of the second conflict.
pub(crate) fn depend(alloc: Global, from: &Side, to: &Side) -> Result<bool, AllocError>
    requires from { IsSide from.now }
    requires to { IsSide to.now }
    ensures { IfOk result (λ answer. IsTrue answer
        ↔ ((level : ℕ) × Meets from.now.piece.now to.now.piece.now level)) }
{
    let depth = from.piece.levels.min(to.piece.levels);
    for differing in 0..depth + 1 {
        if depend_at(alloc, from, to, differing)? {
            return Ok(true);
        }
    }
    Ok(false)
}

/// Adds the triple where its pieces depend at its level.
fn push_level(
    alloc: Global,
    sides: &[Side],
    at: Level,
    levels: &mut List<Level>,
) -> Result<(), AllocError>
    requires sides { All IsSide sides.now }
    requires from { at.from < length sides.now }
    requires to { at.to < length sides.now }
    requires before { Lists (MetBefore sides.now at.from at.to at.level) levels.old }
    ensures { OnOk result (Lists (MetBefore sides.now at.from at.to (at.level + 1)) levels.new) }
{
    let from = &sides[at.from as usize];
    let to = &sides[at.to as usize];
    if depend_at(alloc, from, to, at.level)? {
        return levels.push(at);
    }
    Ok(())
}

/// Adds the triples of two pieces.
fn push_between(
    alloc: Global,
    sides: &[Side],
    from: u32,
    to: u32,
    levels: &mut List<Level>,
) -> Result<(), AllocError>
    requires sides { All IsSide sides.now }
    requires from { from < length sides.now }
    requires to { to < length sides.now }
    requires before { Lists (MetBefore sides.now from to 0) levels.old }
    ensures { OnOk result (Lists (MetBefore sides.now from (to + 1) 0) levels.new) }
{
    let first = sides[from as usize].piece;
    let second = sides[to as usize].piece;
    let depth = first.levels.min(second.levels);
    for level in 0..depth + 1 {
        push_level(alloc, sides, Level { from, to, level }, levels)?;
    }
    Ok(())
}

/// Adds the triples of a first piece.
fn push_from(
    alloc: Global,
    sides: &[Side],
    from: u32,
    levels: &mut List<Level>,
) -> Result<(), AllocError>
    requires sides { All IsSide sides.now }
    requires few { length sides.now ≤ 256 }
    requires from { from < length sides.now }
    requires before { Lists (MetBefore sides.now from 0 0) levels.old }
    ensures { OnOk result (Lists (MetBefore sides.now (from + 1) 0 0) levels.new) }
{
    for to in 0..sides.len() as u32 {
        push_between(alloc, sides, from, to, levels)?;
    }
    Ok(())
}

/// The triples of any two of the sides' pieces.
fn all_levels(alloc: Global, sides: &[Side]) -> Result<List<Level>, AllocError>
    requires sides { All IsSide sides.now }
    requires few { length sides.now ≤ 256 }
    ensures { IfOk result (Lists (IsMet sides.now)) }
{
    let mut levels = List::new(alloc);
    for from in 0..sides.len() as u32 {
        push_from(alloc, sides, from, &mut levels)?;
    }
    Ok(levels)
}

/// The triples of two pieces and a level such that an element of the first conflicts with a later
/// one of the second, and their vectors first differ at that level.
pub fn pairs(alloc: Global, space: &Space) -> Result<List<Level>, AllocError>
    ensures ascending { IfOk result Ascends }
    ensures exactly { IfOk result (λ levels. (t : Level) → In t levels
        ↔ IsDependence space.now.list t) }
{
    let sides = all_sides(alloc, space.pieces.as_slice(), &[])?;
    all_levels(alloc, sides.as_slice())
}
