//! Pieces whose rows give the bounds of their loops.

ghost use Rattle.std.specs.Prelude.{◌≡◌, ◌≤◌, ◌<◌, ◌^◌, pos, true, false, length, IsTrue, ◌↔◌, unsigned_abs, slice_index_or};
ghost use Rattle.std.specs.List.{All};
ghost use Rattle.ch_codegen.specs.Around.{IsLast};
ghost use Rattle.ch_codegen.specs.Bounds.{HasSmallEnd, IsPlain};

use crate::bounds::is_last;
use ch_affine::Aff;
use ch_space::Piece;

/// Whether a number's magnitude fits in 32 bits.
fn is_divisor(coef: i64) -> bool
    ensures { IsTrue result → unsigned_abs coef < 2 ^ 32 }
{
    coef.unsigned_abs() < 1 << 32
}

/// The same of the coefficient of this variable, where it is the row's last.
fn is_small_at(row: &Aff, depth: usize) -> bool
    requires { depth < length row.now.coefs }
    ensures { IsTrue result → IsLast depth row.now
        → unsigned_abs (slice_index_or row.now.coefs depth (pos 0)) < 2 ^ 32 }
{
    !is_last(row, depth) || is_divisor(row.coefs.as_slice()[depth])
}

/// Whether the coefficient of the row's last variable fits in 32 bits.
pub(crate) fn has_small_end(row: &Aff) -> bool
    ensures { IsTrue result → HasSmallEnd row.now }
{
    for depth in 0..row.coefs.len() {
        if !is_small_at(row, depth) {
            return false;
        }
    }
    true
}

fn have_small_ends(rows: &[Aff]) -> bool
    ensures { IsTrue result → All HasSmallEnd rows.now }
{
    for row in rows {
        if !has_small_end(row) {
            return false;
        }
    }
    true
}

/// Whether no variable is hidden, and each row can bound the loop of its last variable.
pub(crate) fn is_plain(piece: &Piece) -> bool
    ensures { IsTrue result → IsPlain piece.now }
{
    piece.hidden == 0 && have_small_ends(piece.system.rows.as_slice())
}

pub(crate) fn are_plain(pieces: &[Piece]) -> bool
    ensures { IsTrue result → All IsPlain pieces.now }
{
    for piece in pieces {
        if !is_plain(piece) {
            return false;
        }
    }
    true
}
