//! Parallel rank ordering: a search on a grid that moves all points of a simplex about its best
//! one, round by round, as the outcomes of its trials come in. What a search says is the search
//! played anew on all entries; the code goes on from where it waited.
#![tactic(auto)]

mod bound;
mod game;
mod laws;
mod measure;
mod moves;
mod outcome;
mod phase;
mod places;
mod ranks;
mod row;
mod rows;
mod search;
mod tally;
mod trials;

pub use laws::{beginnings_are_legal, outcomes_and_points_stay, trials_are_points};
pub use outcome::{Costed, Outcome};
pub use phase::Phase;
pub use ranks::Rank;
pub use search::{RankError, Search};
