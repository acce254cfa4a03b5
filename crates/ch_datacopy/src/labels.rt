//! Labels that no move has yet.

ghost use Rattle.std.specs.Prelude.{◌≡◌, ◌≤◌, ◌^◌};
ghost use Rattle.std.specs.List.{All};
ghost use Rattle.ch_copied.specs.Plans.{next_label};
ghost use Rattle.ch_datacopy.specs.Labels.{next_free};
ghost use Rattle.ch_space.specs.Keeps.{IsMoveBelow};

use ch_space::Piece;
use ch_timed::Label;

/// The number after the label's where it is a move's, if that is greater.
fn next_label(label: Label, free: u32) -> u32
    requires label { IsMoveBelow (2 ^ 13) label }
    requires free { free ≤ 2 ^ 13 }
    ensures value { result ≡ next_label label free }
    ensures near { result ≤ 2 ^ 13 }
{
    match label {
        Label::Stmt(_) => free,
        Label::Move(k) => free.max(k + 1),
    }
}

/// The number after the greatest label of a move.
pub(crate) fn free_label(pieces: &[Piece]) -> u32
    requires { All (λ p. IsMoveBelow (2 ^ 13) p.label) pieces.now }
    ensures value { result ≡ next_free 0 pieces.now }
    ensures near { result ≤ 2 ^ 13 }
{
    let mut free = 0;
    for piece in pieces {
        free = next_label(piece.label, free);
    }
    free
}
