//! One command of a recipe, whether or not the program means the same after it.

ghost use Rattle.std.specs.Prelude.{◌≡◌, ◌<◌, ◌^◌, false, length, IsTrue};
ghost use Rattle.std.specs.List.{All};
ghost use Rattle.ch_affine.specs.Affine.{IsAtMost};
ghost use Rattle.ch_script.specs.Recipes.{command_fits, condition_fits};
ghost use Rattle.ch_script.specs.declared.recipe.Command.TheVariants.{Datacopy, Distribute, Fuse};
ghost use Rattle.ch_script.specs.declared.recipe.Command.TheVariants.{Peel, Permute, Shift};
ghost use Rattle.ch_script.specs.declared.recipe.Command.TheVariants.{Skew, Split, Unroll};
ghost use Rattle.ch_script.specs.declared.recipe.Purpose.TheVariants as purposes;
ghost use Rattle.ch_variant.specs.Arguments.{scope};
ghost use Rattle.ch_variant.specs.Commands.{IsCopied, IsReordered, copies, frees_sums};

use crate::arguments::{Setting, array_of, number, numbers};
use ch_affine::{Aff, Text};
use ch_cut::{Condition, peel, split};
use ch_datacopy::datacopy;
use ch_fuse::{distribute, fuse};
use ch_permute::{permute, shift, skew};
use ch_script::{Arg, Command, Cond, condition_of};
use ch_space::{ShapeError, Space};
use ch_tile::tile;
use ch_unroll::unroll;
use std::alloc::Global;

fn permuted(
    alloc: Global,
    space: &Space,
    setting: &Setting,
    statement: Arg,
    order: &[Arg],
) -> Result<Space, ShapeError>
    requires { space.now.commands < 32 }
    ensures { IsReordered (scope setting.now.nest.now setting.now.values.now)
        (Permute statement order.now) space.now result }
{
    let order = numbers(alloc, setting.values, order)?;
    permute(
        alloc,
        space,
        number(setting.values, statement),
        order.as_slice(),
    )
}

fn skewed(
    alloc: Global,
    space: &Space,
    setting: &Setting,
    statements: &[Arg],
    level: Arg,
    amounts: &[Arg],
) -> Result<Space, ShapeError>
    requires { space.now.commands < 32 }
    ensures { IsReordered (scope setting.now.nest.now setting.now.values.now)
        (Skew statements.now level amounts.now) space.now result }
{
    let pieces = numbers(alloc, setting.values, statements)?;
    let amounts = numbers(alloc, setting.values, amounts)?;
    let level = number(setting.values, level);
    skew(alloc, space, pieces.as_slice(), level, amounts.as_slice())
}

fn shifted(
    alloc: Global,
    space: &Space,
    setting: &Setting,
    statements: &[Arg],
    level: Arg,
    amount: Arg,
) -> Result<Space, ShapeError>
    requires { space.now.commands < 32 }
    ensures { IsReordered (scope setting.now.nest.now setting.now.values.now)
        (Shift statements.now level amount) space.now result }
{
    let pieces = numbers(alloc, setting.values, statements)?;
    let level = number(setting.values, level);
    let amount = number(setting.values, amount);
    shift(alloc, space, pieces.as_slice(), level, amount)
}

fn unrolled(
    alloc: Global,
    space: &Space,
    setting: &Setting,
    statement: Arg,
    level: Arg,
    amount: Arg,
) -> Result<Space, ShapeError>
    requires { space.now.commands < 32 }
    ensures { IsReordered (scope setting.now.nest.now setting.now.values.now)
        (Unroll statement level amount) space.now result }
{
    let piece = number(setting.values, statement);
    let level = number(setting.values, level);
    unroll(alloc, space, piece, level, number(setting.values, amount))
}

fn peeled(
    alloc: Global,
    space: &Space,
    setting: &Setting,
    statement: Arg,
    level: Arg,
    count: Arg,
) -> Result<Space, ShapeError>
    requires { space.now.commands < 32 }
    ensures { IsReordered (scope setting.now.nest.now setting.now.values.now)
        (Peel statement level count) space.now result }
{
    let piece = number(setting.values, statement);
    let level = number(setting.values, level);
    peel(alloc, space, piece, level, number(setting.values, count))
}

fn split_by(
    alloc: Global,
    space: &Space,
    setting: &Setting,
    statement: Arg,
    level: Arg,
    condition: &Cond,
) -> Result<Space, ShapeError>
    requires few { space.now.commands < 32 }
    requires fits { IsTrue (condition_fits purposes.Split (length setting.now.values.now)
        condition.now) }
    requires small { All (IsAtMost (2 ^ 20)) setting.now.values.now }
    ensures { IsReordered (scope setting.now.nest.now setting.now.values.now)
        (Split statement level condition.now) space.now result }
{
    let form = condition_of(alloc, condition, setting.values)?;
    let Aff { coefs, constant } = form;
    let condition = Condition { coefs, constant };
    let piece = number(setting.values, statement);
    let level = number(setting.values, level);
    split(alloc, space, piece, level, &condition)
}

fn fused(
    alloc: Global,
    space: &Space,
    setting: &Setting,
    statements: &[Arg],
    level: Arg,
) -> Result<Space, ShapeError>
    requires { space.now.commands < 32 }
    ensures { IsReordered (scope setting.now.nest.now setting.now.values.now)
        (Fuse statements.now level) space.now result }
{
    let pieces = numbers(alloc, setting.values, statements)?;
    fuse(
        alloc,
        space,
        pieces.as_slice(),
        number(setting.values, level),
    )
}

fn distributed(
    alloc: Global,
    space: &Space,
    setting: &Setting,
    statements: &[Arg],
    level: Arg,
) -> Result<Space, ShapeError>
    requires { space.now.commands < 32 }
    ensures { IsReordered (scope setting.now.nest.now setting.now.values.now)
        (Distribute statements.now level) space.now result }
{
    let pieces = numbers(alloc, setting.values, statements)?;
    distribute(
        alloc,
        space,
        pieces.as_slice(),
        number(setting.values, level),
    )
}

/// The program after a copy of an array's part into a buffer, or the first cause why its shape
/// forbids that.
pub(crate) fn copied(
    alloc: Global,
    space: &Space,
    setting: &Setting,
    statement: Arg,
    level: Arg,
    array: &Text,
) -> Result<Space, ShapeError>
    requires few { space.now.commands < 32 }
    requires buffers { length space.now.temps < 32 }
    ensures { IsCopied (scope setting.now.nest.now setting.now.values.now)
        (Datacopy statement level array.now) space.now result }
{
    let piece = number(setting.values, statement);
    let level = number(setting.values, level);
    datacopy(alloc, space, piece, level, array_of(setting.nest, array))
}

/// The program after a command that gives another order, or the first cause why its shape forbids
/// the command.
pub(crate) fn reordered(
    alloc: Global,
    space: &Space,
    setting: &Setting,
    command: &Command,
) -> Result<Space, ShapeError>
    requires few { space.now.commands < 32 }
    requires orders { copies command.now ≡ false }
    requires moves { frees_sums command.now ≡ false }
    requires fits { IsTrue (command_fits (length setting.now.values.now) command.now) }
    requires small { All (IsAtMost (2 ^ 20)) setting.now.values.now }
    ensures { IsReordered (scope setting.now.nest.now setting.now.values.now)
        command.now space.now result }
{
    match command {
        Command::Permute { statement, order } => {
            permuted(alloc, space, setting, *statement, order.as_slice())
        }
        Command::Skew {
            statements,
            level,
            amounts,
        } => {
            let amounts = amounts.as_slice();
            skewed(
                alloc,
                space,
                setting,
                statements.as_slice(),
                *level,
                amounts,
            )
        }
        Command::Shift {
            statements,
            level,
            amount,
        } => shifted(
            alloc,
            space,
            setting,
            statements.as_slice(),
            *level,
            *amount,
        ),
        Command::Tile {
            statement,
            level,
            size,
            outer,
        } => {
            let piece = number(setting.values, *statement);
            let level = number(setting.values, *level);
            let size = number(setting.values, *size);
            let outer = number(setting.values, *outer);
            tile(alloc, space, piece, level, size, outer)
        }
        Command::Unroll {
            statement,
            level,
            amount,
        } => unrolled(alloc, space, setting, *statement, *level, *amount),
        Command::Split {
            statement,
            level,
            condition,
        } => split_by(alloc, space, setting, *statement, *level, condition),
        Command::Peel {
            statement,
            level,
            count,
        } => peeled(alloc, space, setting, *statement, *level, *count),
        Command::Fuse { statements, level } => {
            fused(alloc, space, setting, statements.as_slice(), *level)
        }
        Command::Distribute { statements, level } => {
            distributed(alloc, space, setting, statements.as_slice(), *level)
        }
        Command::Datacopy { .. } | Command::Accumulate => unreachable!(),
    }
}
