use ch_nest::{Fill, Machine, Nest};
use ch_script::Recipe;

/// What is judged: a nest with the fills of its arrays, one for each, a recipe, and a machine on
/// which costs are counted.
#[derive(Drop)]
pub struct Subject<'a> {
    pub nest: &'a Nest,
    pub fills: &'a [Fill],
    pub recipe: &'a Recipe,
    pub machine: &'a Machine,
}
