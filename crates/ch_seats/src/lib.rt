//! Clients and builders at the books of their sessions: what each of their turns says of what they
//! have seen, in the words of a conduct.
#![tactic(auto)]

mod bench;
mod worker;

pub use bench::Bench;
pub use worker::Worker;
