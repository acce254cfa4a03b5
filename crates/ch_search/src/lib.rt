//! What `search` answers to a deck: for each session its search, led to its end by one thread.
#![tactic(auto)]

mod laws;
mod parts;
mod search;
mod tried;

pub use laws::search_texts_are_unique;
pub use parts::parts_of;
pub use search::answer;
pub use tried::searched;
