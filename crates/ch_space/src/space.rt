use crate::piece::Piece;
use ch_affine::List;
use std::marker::Model;

/// A timed list as pieces. Contracts see the list, and beside it what commands keep count of.
///
/// By its type each piece has an instance, the pieces stand in the order of their places, and the
/// list is well formed; there are at most 256 pieces and 2,097,152 instances, 10 levels and 32
/// commands; every array, iterator and subscript that a body uses exists.
#[derive(Debug, Drop)]
pub struct Space {
    /// How many arrays are declared; the numbers from there on are those of buffers.
    pub arrays: u32,
    pub pieces: List<Piece>,
    /// The number of instances of each piece.
    pub counts: List<u64>,
    /// The extents of each buffer.
    pub temps: List<List<u32>>,
    /// The product of the sizes by which commands multiplied the numbers of the pieces' rows.
    pub weight: u64,
    /// How many commands made it from a nest.
    pub commands: u32,
}

impl Model for Space {
    ghost use Rattle.std.specs.Coded.{codes};
    ghost use Rattle.ch_timed.specs.contracts.element.Element as element;
    ghost use Rattle.ch_space.specs.Listed.{Listed};
    ghost use Rattle.ch_space.specs.Pieces.{listed};
    ghost use Rattle.ch_space.specs.Keeps.{IsSpace};

    ghost Value = { Listed };

    ghost coded = { Prim.hlevel (codes, element.the_row.coded) };

    ghost view = { λ s. record {
      list = listed s.pieces;
      arrays = s.arrays;
      temps = s.temps;
      weight = s.weight;
      commands = s.commands;
    } };

    ghost invariant = { λ s. IsSpace s.arrays s.pieces s.counts s.temps s.weight s.commands };
}
