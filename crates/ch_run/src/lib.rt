//! The program's commands: words and bytes in, a text and a status out.
#![tactic(auto)]

mod answers;
mod eval;
mod run;
mod sums;
mod text;
mod words;

pub use run::{still, top};
