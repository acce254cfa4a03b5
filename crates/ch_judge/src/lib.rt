//! What is said of a recipe: its refusal, or the sizes of the program that it makes, what that
//! costs on a machine, and code for it.
#![tactic(auto)]

mod judging;
mod subject;

pub use judging::{Shown, Told, judge, show, tell};
pub use subject::Subject;
