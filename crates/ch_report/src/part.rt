//! What a report says of a session.
use ch_affine::List;
use ch_rank::Phase;
use ch_script::Refusal;

/// What a trial came to: a cost, with the client that measured it and the number of its call, or
/// the refusal of its recipe.
#[derive(Debug, Drop)]
pub enum Found {
    Cost { client: u32, call: u32, cost: u64 },
    Refused(Refusal),
}

/// One entry of a session's search.
#[derive(Debug, Drop)]
pub struct EntryLine {
    pub trial: u32,
    /// The trial's point, as the index of each parameter.
    pub point: List<u32>,
    pub found: Found,
}

/// One place of the simplex.
#[derive(Debug, Drop)]
pub struct RankLine {
    pub place: u32,
    /// The point that stands there, as the index of each parameter.
    pub point: List<u32>,
    /// Its cost, where its recipe isn't refused.
    pub cost: Option<u64>,
}

/// The best point, with its cost.
#[derive(Debug, Drop)]
pub struct BestLine {
    /// The index of each parameter.
    pub point: List<u32>,
    pub cost: u64,
}

/// What became of a session: the entries of its search in their order, how many steps the search
/// made, the round that it came to, the places of its simplex in the order of their ranks, and the
/// best point, where a point has a cost.
#[derive(Debug, Drop)]
pub struct SessionPart {
    pub entries: List<EntryLine>,
    pub steps: u64,
    pub phase: Phase,
    pub ranks: List<RankLine>,
    pub best: Option<BestLine>,
}
