//! Loops between two numbers, and parts one after another.

ghost use Rattle.std.specs.Prelude.{◌≡◌, ◌≤◌, ◌<◌, ◌^◌, [], ◌∷◌, IfOk};
ghost use Rattle.ch_affine.specs.Affine.{IsAtMost};
ghost use Rattle.ch_affine.specs.Rows.{IsBox};
ghost use Rattle.ch_codegen.specs.Made.{bound, loop, sequence};

use ch_affine::{Aff, Boxed, List, Range};
use ch_code::{Bound, Code};
use std::alloc::{AllocError, Global};

/// A number as a bound inside `depth` loops.
fn number_bound(alloc: Global, depth: usize, number: i64) -> Result<Bound, AllocError>
    requires few { depth ≤ 4096 }
    requires small { IsAtMost (2 ^ 54) number }
    ensures { IfOk result (λ it. it ≡ bound depth number) }
{
    let mut coefs = List::with_capacity(alloc, depth)?;
    for _k in 0..depth {
        coefs.push(0)?;
    }
    let form = Aff {
        coefs,
        constant: number,
    };
    Ok(Bound { form, divisor: 1 })
}

pub(crate) fn number_bounds(
    alloc: Global,
    depth: usize,
    number: i64,
) -> Result<List<Bound>, AllocError>
    requires few { depth ≤ 4096 }
    requires small { IsAtMost (2 ^ 54) number }
    ensures { IfOk result (λ bounds. bounds ≡ bound depth number ∷ []) }
{
    let mut bounds = List::new(alloc);
    bounds.push(number_bound(alloc, depth, number)?)?;
    Ok(bounds)
}

/// A loop between these bounds, inside `depth` loops.
pub(crate) fn loop_between(
    alloc: Global,
    depth: usize,
    lows: List<Bound>,
    highs: List<Bound>,
    inner: Code,
) -> Result<Code, AllocError>
    requires few { depth ≤ 4096 }
    ensures { IfOk result (λ code. code ≡ loop depth lows highs inner) }
{
    let inner = Boxed::new(alloc, inner)?;
    Ok(Code::Loop {
        level: depth as u32 + 1,
        lows,
        highs,
        inner,
    })
}

/// A loop over the numbers of a range, inside `depth` loops.
pub(crate) fn loop_over(
    alloc: Global,
    depth: usize,
    range: Range,
    inner: Code,
) -> Result<Code, AllocError>
    requires few { depth ≤ 4096 }
    requires range { IsBox range }
    ensures { IfOk result (λ code. code
        ≡ loop depth (bound depth range.low ∷ []) (bound depth range.high ∷ []) inner) }
{
    let lows = number_bounds(alloc, depth, range.low)?;
    let highs = number_bounds(alloc, depth, range.high)?;
    loop_between(alloc, depth, lows, highs, inner)
}

/// The parts one after another; a single part stands for itself.
pub(crate) fn in_sequence(mut parts: List<Code>) -> Code
    ensures { result ≡ sequence parts }
{
    if parts.len() != 1 {
        return Code::Seq(parts);
    }
    match parts.pop() {
        Some(only) => only,
        None => Code::Seq(parts),
    }
}
