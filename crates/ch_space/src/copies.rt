//! Deep copies: values of their own that contracts see as the same.

ghost use Rattle.std.specs.Prelude.{◌≡◌, IfOk};

use crate::piece::Piece;
use crate::space::Space;
use ch_affine::{Boxed, List, copied_forms};
use ch_nest::{Access, Body, Expr, Sub};
use std::alloc::{AllocError, Global};

fn copied_subscript(alloc: Global, subscript: &Sub) -> Result<Sub, AllocError>
    ensures { IfOk result (λ copy. copy ≡ subscript.now) }
{
    Ok(Sub {
        form: subscript.form.copied(alloc)?,
        modulus: subscript.modulus,
    })
}

/// An access of its own, of the same array by the same subscripts.
pub fn copied_access(alloc: Global, access: &Access) -> Result<Access, AllocError>
    ensures { IfOk result (λ copy. copy ≡ access.now) }
{
    let mut subs = List::with_capacity(alloc, access.subs.len())?;
    for subscript in access.subs.as_slice() {
        subs.push(copied_subscript(alloc, subscript)?)?;
    }
    Ok(Access {
        array: access.array,
        subs,
    })
}

/// A right side of its own. It goes down the tree, whose depth a nest's limits keep small.
pub fn copied_expr(alloc: Global, expr: &Expr) -> Result<Expr, AllocError>
    ensures { IfOk result (λ copy. copy ≡ expr.now) }
{
    match expr {
        Expr::Number(number) => Ok(Expr::Number(*number)),
        Expr::Iter(level) => Ok(Expr::Iter(*level)),
        Expr::Read(access) => Ok(Expr::Read(copied_access(alloc, access)?)),
        Expr::Neg(inner) => {
            let inner = copied_expr(alloc, inner.get())?;
            Ok(Expr::Neg(Boxed::new(alloc, inner)?))
        }
        Expr::Add(left, right) => {
            let left = copied_expr(alloc, left.get())?;
            let right = copied_expr(alloc, right.get())?;
            Ok(Expr::Add(Boxed::new(alloc, left)?, Boxed::new(alloc, right)?))
        }
        Expr::Sub(left, right) => {
            let left = copied_expr(alloc, left.get())?;
            let right = copied_expr(alloc, right.get())?;
            Ok(Expr::Sub(Boxed::new(alloc, left)?, Boxed::new(alloc, right)?))
        }
        Expr::Mul(left, right) => {
            let left = copied_expr(alloc, left.get())?;
            let right = copied_expr(alloc, right.get())?;
            Ok(Expr::Mul(Boxed::new(alloc, left)?, Boxed::new(alloc, right)?))
        }
    }
}

/// An assignment of its own that does the same.
pub fn copied_body(alloc: Global, body: &Body) -> Result<Body, AllocError>
    ensures { IfOk result (λ copy. copy ≡ body.now) }
{
    Ok(Body {
        write: copied_access(alloc, &body.write)?,
        right: copied_expr(alloc, &body.right)?,
    })
}

/// A piece of its own with the same elements.
pub fn copied_piece(alloc: Global, piece: &Piece) -> Result<Piece, AllocError>
    ensures { IfOk result (λ copy. copy ≡ piece.now) }
{
    Ok(Piece {
        label: piece.label,
        body: copied_body(alloc, &piece.body)?,
        levels: piece.levels,
        hidden: piece.hidden,
        system: piece.system.copied(alloc)?,
        origin: copied_forms(alloc, piece.origin.as_slice())?,
        places: List::from_slice(alloc, piece.places.as_slice())?,
    })
}

fn copied_pieces(alloc: Global, pieces: &[Piece]) -> Result<List<Piece>, AllocError>
    ensures { IfOk result (λ copy. copy ≡ pieces.now) }
{
    let mut copy = List::with_capacity(alloc, pieces.len())?;
    for piece in pieces {
        copy.push(copied_piece(alloc, piece)?)?;
    }
    Ok(copy)
}

/// Lists of their own with the same numbers.
pub fn copied_lists(alloc: Global, lists: &[List<u32>]) -> Result<List<List<u32>>, AllocError>
    ensures { IfOk result (λ copy. copy ≡ lists.now) }
{
    let mut copy = List::with_capacity(alloc, lists.len())?;
    for list in lists {
        copy.push(List::from_slice(alloc, list.as_slice())?)?;
    }
    Ok(copy)
}

/// A space of its own that stands for the same list.
pub fn copied_space(alloc: Global, space: &Space) -> Result<Space, AllocError>
    ensures { IfOk result (λ copy. copy ≡ space.now) }
{
    let pieces = copied_pieces(alloc, space.pieces.as_slice())?;
    let counts = List::from_slice(alloc, space.counts.as_slice())?;
    let temps = copied_lists(alloc, space.temps.as_slice())?;
    Ok(Space {
        arrays: space.arrays,
        pieces,
        counts,
        temps,
        weight: space.weight,
        commands: space.commands,
    })
}
