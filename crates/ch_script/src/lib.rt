//! Recipes: commands that change the loops of a program, with numbers and parameters as arguments;
//! their text; and why one is refused.
#![tactic(auto)]

mod arguments;
mod commands;
mod conditions;
mod fits;
mod limits;
mod names;
mod recipe;
mod refusal;
mod requirements;
mod section;
mod values;
mod word;

pub use recipe::{Arg, Command, Cond, Of, Recipe, Relation, Term};
pub use refusal::Refusal;
pub use requirements::{requirement_of, requirements_of};
pub use section::{ParsedRecipe, parse_recipe};
pub use values::condition_of;
