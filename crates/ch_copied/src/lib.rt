//! Copying the cells of an array that a loop uses into a buffer around the loop: the list that
//! comes of it, and that it does what the list did before.
#![tactic(auto)]

mod laws;

pub use laws::{copy_keeps_arrays, copy_keeps_meaning, extents_are_exact};
