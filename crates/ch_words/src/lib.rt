//! The words of the command line: what they ask for, or that they aren't in the stated set.
//!
//! `clap` reads them as one simple command with a required word, the command's name, and four
//! options with a value each. What the values say is read here, since the stated numbers are
//! narrower than those that `parse` takes.
#![tactic(auto)]

mod command_line;
mod numbers;
mod options;
mod request;
#[cfg(test)]
mod tests;

pub use ch_affine::List;
pub use numbers::{LARGEST_NUMBER, LARGEST_VALUE, MOST_BUILDERS};
pub use request::{Request, read_words};
