//! Decks: the text that the program is given, read whole into programs, recipes, sessions and
//! clients, or refused with its first fault.
#![tactic(auto)]

mod deck;
mod found;
mod limits;
mod program;
mod reader;
mod refusal;
mod sections;
mod titles;

pub use ch_lex::{Code2, Spot};
pub use ch_workload::DeckCode;
pub use program::{Deck, Program};
pub use reader::read_deck;
pub use refusal::{DeckError, Refused};
