//! Timed lists: the statement instances of a program, each with the vector that says when it is
//! executed. What such a list does to a store, when two of its elements conflict, the list of a
//! nest, and what closing places up does to a list.
#![tactic(auto)]

mod element;
mod laws;
mod timed;

pub use element::{Cell, Element, Identity, Label};
pub use laws::{
    closing_keeps_order, execution_keeps_length, more_arrays_change_nothing, order_keeps_all,
    start_in_order, start_is_run, start_stays_inside, start_well_formed,
};
pub use timed::Timed;
