//! Loops in another order, skewed loops and shifted loops: the commands that keep the pieces and
//! their places, and change loop values.
#![tactic(auto)]

mod change;
mod forms;
pub mod laws;
mod ordering;
mod permuting;
mod pieces;
mod ranges;
mod skewing;

pub use permuting::permute;
pub use skewing::{shift, skew};
