//! Rows of seats, one at the book of each session: cut for a client or a builder, and taken in
//! again.
#![tactic(auto)]

mod row;

pub use row::{cut_row, take_row};
