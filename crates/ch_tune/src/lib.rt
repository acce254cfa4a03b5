//! A search that one thread leads to its end.
#![tactic(auto)]

mod judge;
mod laws;
#[cfg(test)]
mod tests;
mod tuning;

pub use judge::Judge;
pub use laws::parts_are_unique;
pub use tuning::tune;
