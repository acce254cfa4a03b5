//! The pieces of a space from candidates: pieces in any order, some without instances, at places
//! that need not be closed up. What the commands share that split pieces or give them other places.
#![tactic(auto)]

mod assemble;
mod candidate;
mod closing;
mod count;
mod moved;
mod parts;
mod places;

pub use assemble::assembled;
pub use candidate::{Assembled, Candidate};
pub use count::count_instances;
pub use moved::moved_space;
pub use places::wide_places;
