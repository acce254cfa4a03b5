//! Exact integer forms: affine forms and their values, systems of such forms over a box of
//! integers, and the containers that the rest of the program's data is made of, each of which
//! contracts see as a plain value.
#![tactic(auto)]

mod aff;
mod boxed;
mod combination;
mod copies;
pub mod extremes;
mod limits;
mod list;
mod negation;
mod system;
mod text;
pub mod wide;

pub use aff::Aff;
pub use boxed::Boxed;
pub use combination::{AffError, combine};
pub use copies::copied_forms;
pub use limits::{LARGEST_COEFFICIENT, LARGEST_END, MOST_VARIABLES};
pub use list::List;
pub use negation::negatives;
pub use system::{Range, System, all_hold};
pub use text::Text;
