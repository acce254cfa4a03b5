//! A deck that is made from a number, and what the searches of its sessions come to.
#![tactic(auto)]

mod demo;
mod generated;
mod laws;
mod product;

pub use demo::answer;
pub use laws::{demo_texts_are_unique, generated_decks_are_decks};
