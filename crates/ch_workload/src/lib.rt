//! What a deck tunes and who calls it: sessions and clients, and the readers of their sections.
//!
//! A session names a program, a recipe and a grid of values for the recipe's parameters. A client
//! is a list of calls of sessions, with a machine on which their costs are counted. What they name
//! was declared before them in the deck.
#![tactic(auto)]

mod admissible;
mod calls;
mod client;
mod error;
mod fills;
mod headings;
mod laws;
mod limits;
mod machine;
mod names;
mod params;
mod session;

pub use calls::CallDecl;
pub use client::{ParsedClient, Script, parse_client};
pub use error::{DeckCode, SectionError};
pub use fills::ClientFill;
pub use laws::admissible_points;
pub use names::Declared;
pub use session::{ParsedSession, SessionDecl, parse_session};
