//! Questions about pairs of elements of pieces, answered by the solver: whether two accesses meet
//! on one cell, at which level, and the least meeting pair that two other pieces have the other way
//! round.
#![tactic(auto)]

mod cells;
mod common;
mod draft;
mod layout;
mod meeting;
mod orders;
mod placing;
mod question;
mod reversal;

pub use common::have_common;
pub use meeting::meets_at;
pub use question::{FourPieces, TwoAccesses};
pub use reversal::least_reversal;
