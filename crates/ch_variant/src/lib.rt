//! Variants of a loop nest: what a recipe makes of it, command by command, and the code made for
//! that.
#![tactic(auto)]

mod applying;
mod arguments;
mod building;
mod commands;
mod error;
mod judging;
mod point;
mod variant;

pub use applying::apply;
pub use building::{build, original};
pub use error::ApplyError;
pub use judging::{Judgement, judge};
pub use point::used_point;
pub use variant::Variant;
