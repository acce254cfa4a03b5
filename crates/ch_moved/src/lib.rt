//! What the commands that move elements share: the list that a command makes, the causes that
//! refuse it, and the piece over new levels from which affine forms give the old ones.
#![tactic(auto)]

mod bounds;
pub mod causes;
pub mod groups;
mod reindex;
mod space;
mod substitute;
mod ties;
pub mod units;

pub use reindex::reindexed;
pub use space::closed_space;
