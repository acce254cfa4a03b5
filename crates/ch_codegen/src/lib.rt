//! Code for a space: loops that neighbouring pieces share, between the bounds that their rows give,
//! whose trace is the space's list.
#![tactic(auto)]

mod bounds;
mod cuts;
mod elimination;
mod everywhere;
mod fixed;
mod generator;
mod loops;
mod plain;
mod runs;
mod same;
mod statements;
mod systems;
mod tight;
mod trees;
mod units;

pub use generator::generate;
