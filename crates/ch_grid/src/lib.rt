//! Grids of integer parameters: the values of each parameter, the points of the grid as lists of
//! indices, and the flat index of a point in row-major order.
#![tactic(auto)]

mod grid;
mod param;
mod points;
#[cfg(test)]
mod tests;

pub use grid::{Grid, GridError};
pub use param::Param;
pub use points::flat_index;
