//! Statements, with a guard where they need one.

ghost use Rattle.std.specs.Prelude.{◌≡◌, [], ◌∷◌, IfOk};
ghost use Rattle.ch_space.specs.Keeps.{IsWhole};
ghost use Rattle.ch_codegen.specs.Formed.{IsFormed};
ghost use Rattle.ch_codegen.specs.Around.{Executes};
ghost use Rattle.ch_codegen.specs.Made.{leaf, guard};

use crate::plain::is_plain;
use ch_affine::{Boxed, List, copied_forms};
use ch_code::Code;
use ch_space::Piece;
use ch_space::copies::copied_body;
use std::alloc::{AllocError, Global};

/// The statement of a piece, for values of all its levels.
fn statement(alloc: Global, piece: &Piece) -> Result<Code, AllocError>
    ensures { IfOk result (λ code. code ≡ leaf piece.now) }
{
    let body = copied_body(alloc, &piece.body)?;
    let origin = copied_forms(alloc, piece.origin.as_slice())?;
    let places = List::from_slice(alloc, piece.places.as_slice())?;
    Ok(Code::Leaf {
        label: piece.label,
        body,
        origin,
        places,
    })
}

/// Code under the guard of a piece's system.
pub(crate) fn guard_over(alloc: Global, piece: &Piece, inner: Code) -> Result<Code, AllocError>
    ensures { IfOk result (λ code. code ≡ guard piece.now inner) }
{
    let system = piece.system.copied(alloc)?;
    let inner = Boxed::new(alloc, inner)?;
    Ok(Code::Guard { system, inner })
}

/// The statement of a piece that ends inside `depth` loops, whose values follow its rows where that
/// is `known`: under a guard where they don't tell that there is an instance.
pub(crate) fn end_code(
    alloc: Global,
    piece: &Piece,
    depth: usize,
    known: bool,
) -> Result<Code, AllocError>
    requires whole { IsWhole piece.now }
    requires ends { piece.now.levels ≡ depth }
    ensures lists { IfOk result (λ code. Executes depth known (piece.now ∷ []) code) }
    ensures formed { IfOk result (λ code. IsFormed depth (piece.now ∷ []) code) }
{
    piece.system.known();
    let inner = statement(alloc, piece)?;
    if known && is_plain(piece) {
        return Ok(inner);
    }
    guard_over(alloc, piece, inner)
}
