//! Sums in any order: which assignments accumulate, what may change places where accumulations may,
//! and which pieces' elements may.
#![tactic(auto)]

mod accumulation;
mod laws;
mod pairs;
mod sums;

pub use accumulation::accumulates;
pub use laws::{
    free_pairs_tell_relaxed, relaxed_does_same, relaxed_steps_do_same, sums_change_places,
};
pub use pairs::{free_pairs, reversed_sum};
pub use sums::{FreeConflicts, same_sum};

#[cfg(test)]
mod tests;
