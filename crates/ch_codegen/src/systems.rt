//! What the types of systems keep, told to callers.

ghost use Rattle.ch_codegen.specs.Parts.{AreSystems};

use ch_space::Piece;

/// Tells a caller what the system of each piece keeps by its type.
pub(crate) fn known_systems(pieces: &[Piece])
    ensures { AreSystems pieces.now }
{
    for piece in pieces {
        piece.system.known();
    }
}
