ghost use Rattle.std.specs.Prelude.{◌≡◌, ◌↔◌, IfSome, IsSome, IsTrue};
ghost use Rattle.ch_script.specs.Recipes.{is_recipe, recipe_of};

use crate::fits::{all_commands_fit, all_conditions_fit};
use crate::limits::{MOST_COMMANDS, MOST_CONDITIONS, MOST_PARAMS};
use ch_affine::{List, Text};
use std::marker::Model;

/// A number, or a parameter of the recipe, counted from 0.
#[derive(Clone, Copy, Debug, PartialEq, Eq)]
pub enum Arg {
    Number(i64),
    Param(u32),
}

/// What a term of a condition is a multiple of: 1, the loop value of a level from 1 on, or a
/// parameter.
#[derive(Clone, Copy, Debug, PartialEq, Eq)]
pub enum Of {
    One,
    Level(u32),
    Param(u32),
}

#[derive(Clone, Copy, Debug, PartialEq, Eq)]
pub struct Term {
    pub negative: bool,
    pub factor: u32,
    pub of: Of,
}

#[derive(Clone, Copy, Debug, PartialEq, Eq)]
pub enum Relation {
    Less,
    AtMost,
    More,
    AtLeast,
}

/// What a condition is for: a `require`, where all names are those of parameters, or a split.
#[derive(Clone, Copy, Debug, PartialEq, Eq)]
pub enum Purpose {
    Require,
    Split,
}

/// A comparison of two sums.
#[derive(Debug, Drop)]
pub struct Cond {
    pub left: List<Term>,
    pub relation: Relation,
    pub right: List<Term>,
}

/// A change of the loops of a program. Statements are named by their numbers, and levels count from
/// 1.
#[derive(Debug, Drop)]
pub enum Command {
    Permute {
        statement: Arg,
        order: List<Arg>,
    },
    Skew {
        statements: List<Arg>,
        level: Arg,
        amounts: List<Arg>,
    },
    Shift {
        statements: List<Arg>,
        level: Arg,
        amount: Arg,
    },
    Tile {
        statement: Arg,
        level: Arg,
        size: Arg,
        outer: Arg,
    },
    Unroll {
        statement: Arg,
        level: Arg,
        amount: Arg,
    },
    Split {
        statement: Arg,
        level: Arg,
        condition: Cond,
    },
    Peel {
        statement: Arg,
        level: Arg,
        count: Arg,
    },
    Fuse {
        statements: List<Arg>,
        level: Arg,
    },
    Distribute {
        statements: List<Arg>,
        level: Arg,
    },
    Datacopy {
        statement: Arg,
        level: Arg,
        array: Text,
    },
    /// It changes nothing: from here on the terms of a sum may change places among themselves.
    Accumulate,
}

/// Commands, the names of the parameters that they may name, and the conditions that the values of
/// the parameters must meet.
///
/// By its type a recipe has at most 6 parameters, 8 conditions and 32 commands, and each parameter
/// that it names exists. A condition has at most 2^20 terms. Those between parameters name no
/// level; in that of a split the levels are 1 to 10, and a parameter has the factor 1.
#[derive(Debug, Drop)]
pub struct Recipe {
    pub name: Text,
    pub params: List<Text>,
    pub conditions: List<Cond>,
    pub commands: List<Command>,
}

impl Model for Recipe {
    ghost use Rattle.std.specs.Prelude.{IsTrue};
    ghost use Rattle.std.specs.Coded.{codes};
    ghost use Rattle.ch_script.specs.contracts.recipe.Cond as cond;
    ghost use Rattle.ch_script.specs.contracts.recipe.Command as command;
    ghost use Rattle.ch_script.specs.Recipes.{RecipeParts, recipe_of, is_recipe};

    ghost Value = { RecipeParts };

    ghost coded = { Prim.hlevel (codes, cond.the_row.coded, command.the_row.coded) };

    ghost view = { λ r. recipe_of r.name r.params r.conditions r.commands };

    ghost invariant = { λ r. IsTrue (is_recipe (recipe_of r.name r.params r.conditions r.commands)) };
}

impl Recipe {
    /// The recipe of these parts, or `None` where they aren't one: where a limit is passed, a
    /// parameter that is named doesn't exist, a condition between parameters names a level, or that
    /// of a split a level outside 1 to 10 or a multiple of a parameter.
    pub fn new(
        name: Text,
        params: List<Text>,
        conditions: List<Cond>,
        commands: List<Command>,
    ) -> Option<Recipe>
        ensures fits { IsSome result
            ↔ IsTrue (is_recipe (recipe_of name params conditions commands)) }
        ensures value { IfSome result (λ r. r ≡ recipe_of name params conditions commands) }
    {
        let are_few = params.len() <= MOST_PARAMS
            && conditions.len() <= MOST_CONDITIONS
            && commands.len() <= MOST_COMMANDS;
        if !are_few
            || !all_conditions_fit(params.len(), conditions.as_slice())
            || !all_commands_fit(params.len(), commands.as_slice())
        {
            return None;
        }
        Some(Recipe {
            name,
            params,
            conditions,
            commands,
        })
    }

    /// Tells a caller what each recipe keeps by its type. It does nothing.
    pub fn known(&self)
        ensures { IsTrue (is_recipe self.now) }
    {
        let _ = self.commands.len();
    }
}
