//! The text of a recipe, which is read as the same recipe again.
#![tactic(auto)]

mod arguments;
mod commands;
mod conditions;
mod printable;
mod recipe;

pub use printable::parsed_recipes_are_printable;
pub use recipe::print_recipe;
