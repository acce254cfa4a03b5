//! The text of a program: its symbols one after the other, and how they are laid out.
#![tactic(auto)]

mod access;
mod bounds;
mod conditions;
mod declared;
mod forms;
mod layout;
mod limits;
mod minus;
mod named;
mod printable;
mod program;
mod right;
mod symbol;

pub use printable::parsed_programs_are_printable;
pub use program::print_program;
