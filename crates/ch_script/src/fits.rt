//! What the type of a recipe keeps, looked at.

ghost use Rattle.std.specs.Prelude.{◌≡◌};
ghost use Rattle.std.specs.List.{list_all};
ghost use Rattle.ch_script.specs.Recipes.{arg_fits, args_fit, command_fits, condition_fits};
ghost use Rattle.ch_script.specs.Recipes.{has_few_terms, required_fits, split_fits, term_fits};
ghost use Rattle.ch_script.specs.declared.recipe.Purpose.TheVariants.{Require};

use crate::limits::{DEEPEST_LEVEL, MOST_TERMS};
use crate::recipe::{Arg, Command, Cond, Of, Purpose, Term};

fn arg_fits(params: usize, arg: &Arg) -> bool
    ensures { result ≡ arg_fits params arg.now }
{
    match arg {
        Arg::Number(_) => true,
        Arg::Param(k) => (*k as usize) < params,
    }
}

fn args_fit(params: usize, args: &[Arg]) -> bool
    ensures { result ≡ args_fit params args.now }
{
    args.iter().all(|a| arg_fits(params, a))
}

fn required_fits(params: usize, of: Of) -> bool
    ensures { result ≡ required_fits params of }
{
    match of {
        Of::One => true,
        Of::Level(_) => false,
        Of::Param(k) => (k as usize) < params,
    }
}

fn split_fits(params: usize, factor: u32, of: Of) -> bool
    ensures { result ≡ split_fits params factor of }
{
    match of {
        Of::One => true,
        Of::Level(l) => 1 <= l && l <= DEEPEST_LEVEL,
        Of::Param(k) => (k as usize) < params && factor == 1,
    }
}

fn term_fits(purpose: Purpose, params: usize, term: &Term) -> bool
    ensures { result ≡ term_fits purpose params term.now }
{
    match purpose {
        Purpose::Require => required_fits(params, term.of),
        Purpose::Split => split_fits(params, term.factor, term.of),
    }
}

fn terms_fit(purpose: Purpose, params: usize, terms: &[Term]) -> bool
    ensures { result ≡ list_all (term_fits purpose params) terms.now }
{
    terms.iter().all(|t| term_fits(purpose, params, t))
}

fn has_few_terms(cond: &Cond) -> bool
    ensures { result ≡ has_few_terms cond.now }
{
    let left = cond.left.len();
    left <= MOST_TERMS && cond.right.len() <= MOST_TERMS - left
}

fn condition_fits(purpose: Purpose, params: usize, cond: &Cond) -> bool
    ensures { result ≡ condition_fits purpose params cond.now }
{
    has_few_terms(cond)
        && terms_fit(purpose, params, cond.left.as_slice())
        && terms_fit(purpose, params, cond.right.as_slice())
}

fn command_fits(params: usize, command: &Command) -> bool
    ensures { result ≡ command_fits params command.now }
{
    match command {
        Command::Permute { statement, order } => {
            arg_fits(params, statement) && args_fit(params, order.as_slice())
        }
        Command::Skew {
            statements,
            level,
            amounts,
        } => {
            args_fit(params, statements.as_slice())
                && arg_fits(params, level)
                && args_fit(params, amounts.as_slice())
        }
        Command::Shift {
            statements,
            level,
            amount,
        } => {
            args_fit(params, statements.as_slice())
                && arg_fits(params, level)
                && arg_fits(params, amount)
        }
        Command::Tile {
            statement,
            level,
            size,
            outer,
        } => {
            arg_fits(params, statement)
                && arg_fits(params, level)
                && arg_fits(params, size)
                && arg_fits(params, outer)
        }
        Command::Unroll {
            statement,
            level,
            amount,
        } => { arg_fits(params, statement) && arg_fits(params, level) && arg_fits(params, amount) }
        Command::Split {
            statement,
            level,
            condition,
        } => {
            arg_fits(params, statement)
                && arg_fits(params, level)
                && condition_fits(Purpose::Split, params, condition)
        }
        Command::Peel {
            statement,
            level,
            count,
        } => arg_fits(params, statement) && arg_fits(params, level) && arg_fits(params, count),
        Command::Fuse { statements, level } | Command::Distribute { statements, level } => {
            args_fit(params, statements.as_slice()) && arg_fits(params, level)
        }
        Command::Datacopy {
            statement,
            level,
            ..
        } => arg_fits(params, statement) && arg_fits(params, level),
        Command::Accumulate => true,
    }
}

pub(crate) fn all_conditions_fit(params: usize, conditions: &[Cond]) -> bool
    ensures { result ≡ list_all (condition_fits Require params) conditions.now }
{
    conditions
        .iter()
        .all(|c| condition_fits(Purpose::Require, params, c))
}

pub(crate) fn all_commands_fit(params: usize, commands: &[Command]) -> bool
    ensures { result ≡ list_all (command_fits params) commands.now }
{
    commands.iter().all(|c| command_fits(params, c))
}
