//! Plans: code made ready to run, and the walk that does what a plan says to flat cells and to a
//! meter of the cost.
#![tactic(auto)]

mod accesses;
mod divisor;
mod ends;
mod meter;
mod plan;
mod sums;
mod walking;

pub use accesses::{Placed, Site, spot_of, stride, sum_of};
pub use divisor::{Divisor, divisor_of};
pub use meter::{Setting, Tally};
pub use plan::{Limit, Plan, Residue, Right, Spot, Sum, Term, Weight};
pub use sums::{plus, times};
pub use walking::walk;
