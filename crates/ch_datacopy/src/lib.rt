//! The command that copies the part of an array that a loop uses into a buffer around the loop.
#![tactic(auto)]

mod accesses;
mod candidates;
mod cells;
mod copying;
mod labels;
mod limits;
mod moves;
mod places;
mod ranges;
mod redirect;
mod rows;
mod uses;
mod widths;

pub use copying::datacopy;
