//! Clients and builders, each in a thread of its own, on the books of all sessions.
#![tactic(auto)]

mod crew;
mod worker;

pub use crew::{Caller, Crew, Gathered, run_all};
