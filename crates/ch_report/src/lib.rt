//! The texts of answers: points of a grid, refusals of recipes, and what a session came to.
#![tactic(auto)]

mod part;
mod phases;
mod points;
mod refusals;
mod session;
mod summaries;

pub use part::{BestLine, EntryLine, Found, RankLine, SessionPart};
pub use phases::put_phase;
pub use points::{put_point, put_values};
pub use refusals::put_refusal;
pub use session::{Tuning, put_best, put_session};
pub use summaries::summary;
