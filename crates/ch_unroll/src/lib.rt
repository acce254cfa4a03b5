//! Unrolling: copies of a loop's body for so many of its turns at once.
#![tactic(auto)]

mod copies;
mod layout;
mod turn;
mod unrolling;

pub use unrolling::unroll;
