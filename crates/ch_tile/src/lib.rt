//! Tiling: a loop over tiles of a level's values, put around other loops.
#![tactic(auto)]

mod cause;
mod layout;
mod pieces;
mod tiling;

pub use tiling::tile;
