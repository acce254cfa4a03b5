//! What a timed list costs on a machine: its elements, the turns of loops that begin, and the
//! accesses that miss a cache in which each line of cells has one slot.
#![tactic(auto)]

mod laws;

pub use laws::{cost_is_metered, kept_levels_are_a_common_front};
