//! The evaluator: what a unit's code does to the arrays of a program, and what that costs on a
//! machine.
#![tactic(auto)]

mod arrays;
mod eval;
mod make;
mod ready;

pub use arrays::Arrays;
pub use eval::run;
