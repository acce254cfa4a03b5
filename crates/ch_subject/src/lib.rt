//! What a session of a deck names, as what is judged: its program, its recipe, and the machine on
//! which its costs are counted.
#![tactic(auto)]

mod machine;
mod subject;

pub use machine::machine_of;
pub use subject::{program_of, recipe_of, subject_of};
