//! Loop nests over arrays, and what they do when they run in program order.
#![tactic(auto)]

pub mod boxes;
mod cause;
mod cells;
mod exprs;
mod fills;
mod flat;
mod forms;
mod lies;
pub mod limits;
mod machine;
mod nest;
mod place;
mod plan;
mod run;
mod shape;
mod walk;

pub use cause::Shape;
pub use exprs::Standing;
pub use fills::filled;
pub use machine::Machine;
pub use nest::{Access, ArrayDecl, Body, Expr, Fill, Item, Nest, Sub};
pub use place::{cells_in, sub_value, total};
pub use plan::perform;
pub use run::{
    as_number, extended, greatest_low, is_met, least_high, next_value, run_nest, turns_of,
};
pub use walk::{access_inside, body_inside, is_sound};
