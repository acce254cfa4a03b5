//! A builder: it claims and builds on each session until no trial is open.
#![tactic(auto)]

mod builder;
mod job;

pub use builder::{Builder, work};
pub use job::{Outcome, work_on};
