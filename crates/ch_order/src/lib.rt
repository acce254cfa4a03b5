//! The order law: two timed lists of the same steps do the same to every store, unless two elements
//! that conflict are executed the other way round.
#![tactic(auto)]

mod bodies;
mod cells;
mod exact;
mod laws;
mod meaning;
mod numbers;
mod rule;

pub use bodies::same_access;
pub use cells::conflicts;
pub use laws::{
    arrays_hold_the_store, keeping_arrays_composes, kept_arrays_are_equal, legal_does_same,
    legal_list_runs_the_nest, legal_steps_do_same, neighbours_change_places, reversed_is_least,
};
pub use meaning::{same_meaning, same_meaning_by};
pub use rule::{AllConflicts, KeepOrder};
