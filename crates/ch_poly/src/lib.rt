//! Exact questions on the integer points of a system of affine rows over a box: the
//! lexicographically least point, the extreme values of a form, whether a point begins with given
//! values, and whether one or two rows already leave no point.
//!
//! The search narrows the ranges of all variables by all rows (bounds propagation), by equalities
//! that follow from the rows (Gauss and Jordan's elimination in whole numbers, and the divisors of
//! Pugh's Omega test, 1991) and by one sum of rows with factors of at least 0 (a cut by the
//! rational projection, or Farkas' certificate that there is no point), before it branches. An
//! exact dual simplex finds the factors, in whole numbers with one common denominator (Edmonds
//! 1967, Bareiss 1968). Nothing is claimed of the factors, since any such sum holds wherever the
//! rows do.
#![tactic(auto)]

mod cut;
mod divisor;
mod equalities;
mod equality;
mod exclude;
mod exclusion;
mod extremes;
mod goal;
mod hollow;
mod mix;
mod narrow;
mod negative;
mod opposed;
mod peak;
mod room;
mod search;
mod simplex;
mod solve;
mod tighten;

pub use exclude::excluded;
pub use exclusion::Excluded;
pub use extremes::{greatest_value, least_value};
pub use room::{Room, has_point};
pub use solve::least_point;
