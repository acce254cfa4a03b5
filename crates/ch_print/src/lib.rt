//! The texts of numbers, statement instances and cells, each added at the end of a text.
#![tactic(auto)]

mod instances;
mod numbers;
#[cfg(test)]
mod tests;

pub use instances::{put_buffer, put_cell, put_identity, put_integers, put_label, put_subscripts};
pub use numbers::{put_integer, put_number, put_wide};
