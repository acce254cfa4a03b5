//! One value behind a ticket lock, with a history that only grows. Threads take turns on the value
//! through seats, in the order of the tickets that they drew, and a count of the history can be
//! read without a turn. What a seat has seen, read and added is known to contracts, so what several
//! threads did to the value is told by their seats alone.
#![tactic(auto)]

mod crossing;
mod listed;
mod plays;
mod seat;
mod steps;
#[cfg(test)]
mod tests;
mod turn;
mod view;
mod wait;

pub use listed::Listed;
pub use seat::TurnSeat;
pub use turn::Turn;
