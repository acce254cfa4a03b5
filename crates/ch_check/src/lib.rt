//! What `check` and `show` answer to a deck: for each session what is said of its recipe, and for
//! `show` what the recipe makes, as pieces and as code.
#![tactic(auto)]

mod answer;
mod checking;
mod line;
mod pieces;
mod place;
mod showing;

pub use answer::{Answer, fits_all};
pub use checking::check;
pub use showing::show;
