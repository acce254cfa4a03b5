use ch_affine::{Aff, List, System};
use ch_nest::Body;
use ch_timed::Label;

/// The elements of a timed list that have the same static places.
///
/// The system's variables are the loop values of the piece's levels, from the outermost on, and
/// then hidden ones. An instance is a vector of level values that some point of the system begins
/// with. `origin` gives the original iterators from the levels, and `places` has one place more
/// than there are levels.
#[derive(Debug, Drop)]
pub struct Piece {
    pub label: Label,
    pub body: Body,
    pub levels: u32,
    pub hidden: u32,
    pub system: System,
    pub origin: List<Aff>,
    pub places: List<u32>,
}
