use ch_affine::List;
use ch_space::Piece;

/// A piece at places that need not fit those of a piece. The piece's own places count for nothing.
///
/// `count` is the number of its instances, where it is known already, as where only places change.
#[derive(Debug, Drop)]
pub struct Candidate {
    pub piece: Piece,
    pub places: List<u64>,
    pub count: Option<u64>,
}

/// The pieces of a space, and how many instances each has.
#[derive(Debug, Drop)]
pub struct Assembled {
    pub pieces: List<Piece>,
    pub counts: List<u64>,
}
