//! A client: its calls on the sessions of its script, on arrays of its own.
#![tactic(auto)]

mod call;
mod client;
mod last;
mod rows;

pub use call::call_once;
pub use client::{Client, Log, Manner, play_script};
pub use last::Last;
