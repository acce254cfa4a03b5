//! A loop cut by a condition.

ghost use Rattle.std.specs.Prelude.{◌≡◌, ◌+◌, ◌<◌, ◌≤ℤ◌, ◌^◌, None, [], ◌∷◌};
ghost use Rattle.std.specs.Prelude.{nat_le, unsigned_abs, pos, length, IfOk};
ghost use Rattle.std.specs.List.{All};
ghost use Rattle.ch_affine.specs.Affine.{IsAtMost, form};
ghost use Rattle.ch_cut.specs.Cut.{large_coefficient, large_constant};
ghost use Rattle.ch_cut.specs.Cut.{names_deeper, split, split_cause};
ghost use Rattle.ch_cut.specs.Forms.{IsModest};
ghost use Rattle.ch_moved.specs.Causes.{Answers, first_failing, first_of, no_level, no_piece};
ghost use Rattle.ch_order.specs.Legal.{AreAmong};

use crate::condition::Condition;
use crate::cut::cut;
use ch_affine::{Aff, List};
use ch_moved::causes::{no_level, no_piece, too_large};
use ch_nest::Shape;
use ch_space::{ShapeError, Space};
use std::alloc::{AllocError, Global};

/// The number of coefficients, where they name a level behind the one that is cut.
fn names_deeper(level: i64, condition: &Condition) -> Option<Shape>
    ensures { result ≡ names_deeper level (form condition.now.coefs condition.now.constant) }
{
    let count = condition.coefs.len() as i128;
    if i128::from(level) < count {
        return Some(Shape {
            code: 2,
            number: count,
        });
    }
    None
}

/// Why the shape of the program forbids a split, but for the number of pieces that it leaves.
fn split_cause(space: &Space, number: i64, level: i64, condition: &Condition) -> Option<Shape>
    ensures { result ≡ first_of
        (no_piece space.now.list (number ∷ []) ∷ no_level space.now.list (number ∷ []) level
        ∷ names_deeper level (form condition.now.coefs condition.now.constant)
        ∷ large_coefficient (form condition.now.coefs condition.now.constant)
        ∷ large_constant (form condition.now.coefs condition.now.constant) ∷ []) }
{
    if let Some(shape) = no_piece(space, &[number]) {
        return Some(shape);
    }
    if let Some(shape) = no_level(space, &[number], level) {
        return Some(shape);
    }
    if let Some(shape) = names_deeper(level, condition) {
        return Some(shape);
    }
    if let Some(shape) = too_large(condition.coefs.as_slice(), 64) {
        return Some(shape);
    }
    too_large(&[condition.constant], 1 << 30)
}

/// The condition as a form.
fn form_of(
    alloc: Global,
    space: &Space,
    number: i64,
    level: i64,
    condition: &Condition,
) -> Result<Aff, AllocError>
    requires piece { no_piece space.now.list (number ∷ []) ≡ None }
    requires level { no_level space.now.list (number ∷ []) level ≡ None }
    requires short { pos (length condition.now.coefs) ≤ℤ level }
    requires coefs { All (IsAtMost 64) condition.now.coefs }
    requires constant { IsAtMost (2 ^ 30) condition.now.constant }
    ensures form { IfOk result (λ f. f ≡ form condition.now.coefs condition.now.constant) }
    ensures modest { IfOk result (λ f. IsModest f) }
{
    // A piece has at most 10 levels, as a look at its parts tells.
    let _ = space.pieces.len();
    let coefs = List::from_slice(alloc, condition.coefs.as_slice())?;
    Ok(Aff {
        coefs,
        constant: condition.constant,
    })
}

/// The space with the loop of the level around a piece cut in two: the turns at which the condition
/// holds come first, for all pieces that share the loop, and the others behind them. It is not
/// tested whether the program means the same.
///
/// # Errors
///
/// C1 where there is no piece of that number, C2 where it doesn't have that level or the condition
/// has more coefficients than the level, C4 where a coefficient has a magnitude above 64 or the
/// constant one above 2^30, and C7 where there are more than 256 pieces then.
pub fn split(
    alloc: Global,
    space: &Space,
    piece: i64,
    level: i64,
    condition: &Condition,
) -> Result<Space, ShapeError>
    requires few { space.now.commands < 32 }
    ensures cause { Answers result
        (split_cause space.now.list piece level (form condition.now.coefs condition.now.constant)) }
    ensures list { IfOk result (λ new.
        new.list ≡ split space.now.list piece level (form condition.now.coefs condition.now.constant)) }
    ensures kept { IfOk result (λ new. AreAmong space.now.list new.list) }
    ensures no_others { IfOk result (λ new. AreAmong new.list space.now.list) }
    ensures arrays { IfOk result (λ new. new.arrays ≡ space.now.arrays) }
    ensures temps { IfOk result (λ new. new.temps ≡ space.now.temps) }
    ensures weight { IfOk result (λ new. new.weight ≡ space.now.weight) }
    ensures commands { IfOk result (λ new. new.commands ≡ space.now.commands + 1) }
{
    if let Some(shape) = split_cause(space, piece, level, condition) {
        return Err(ShapeError::Shape(shape));
    }
    let form = form_of(alloc, space, piece, level, condition)?;
    cut(alloc, space, piece, level, &form)
}
