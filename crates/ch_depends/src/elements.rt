//! Elements of a piece, made from their level values.

ghost use Rattle.std.specs.Prelude.{◌≡◌, IfOk};
ghost use Rattle.ch_meeting.specs.Meeting.{IsPlain, iters_at};
ghost use Rattle.ch_space.specs.Pieces.{element_at, instances};
ghost use Rattle.ch_timed.specs.Members.{In};

use ch_affine::List;
use ch_space::copies::copied_body;
use ch_space::{Piece, woven};
use ch_timed::{Element, Identity};
use std::alloc::{AllocError, Global};

/// The iterators of a piece's element.
fn iters_at(alloc: Global, piece: &Piece, values: &[i64]) -> Result<List<i64>, AllocError>
    requires plain { IsPlain piece.now }
    requires one { In values.now (instances piece.now) }
    ensures { IfOk result (λ iters. iters ≡ iters_at piece.now values.now) }
{
    piece.system.known();
    let mut iters = List::with_capacity(alloc, piece.origin.len())?;
    for form in piece.origin.as_slice() {
        iters.push(form.value(values) as i64)?;
    }
    Ok(iters)
}

/// The element of a piece at these level values.
pub(crate) fn element_at(
    alloc: Global,
    piece: &Piece,
    values: &[i64],
) -> Result<Element, AllocError>
    requires plain { IsPlain piece.now }
    requires one { In values.now (instances piece.now) }
    ensures { IfOk result (λ element. element ≡ element_at piece.now values.now) }
{
    let iters = iters_at(alloc, piece, values)?;
    let vector = woven(alloc, piece.places.as_slice(), values)?;
    let body = copied_body(alloc, &piece.body)?;
    let identity = Identity {
        label: piece.label,
        iters,
    };
    Ok(Element {
        identity,
        vector,
        body,
    })
}
