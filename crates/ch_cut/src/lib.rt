//! Splitting and peeling: a loop cut in two by a condition, or its first or last turns taken out of
//! it.
#![tactic(auto)]

mod condition;
mod cut;
mod ends;
mod forms;
mod halves;
mod parts;
mod peeling;
mod splitting;

pub use condition::Condition;
pub use peeling::peel;
pub use splitting::split;
