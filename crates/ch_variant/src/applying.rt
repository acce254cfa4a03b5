//! A recipe applied to a nest, command by command.

ghost use Rattle.std.specs.Prelude.{◌≡◌, ◌<◌, ◌^◌, false, length, IfErr, IfOk, IsTrue};
ghost use Rattle.std.specs.List.{All};
ghost use Rattle.ch_affine.specs.Affine.{IsAtMost};
ghost use Rattle.ch_depends.specs.Depends.{pair_of};
ghost use Rattle.ch_nest.specs.Sound.{is_sound};
ghost use Rattle.ch_order.specs.Legal.{AreAmong};
ghost use Rattle.ch_script.specs.Recipes.{command_fits};
ghost use Rattle.ch_script.specs.declared.refusal.Refusal.TheVariants.{Illegal};
ghost use Rattle.ch_timed.specs.Timed.{is_well_formed};
ghost use Rattle.ch_variant.specs.Applied.{IsAnswer, applied, forbidden_at, one, turned};
ghost use Rattle.ch_variant.specs.Arguments.{scope};
ghost use Rattle.ch_variant.specs.Commands.{IsBehind, copies, frees_sums};
ghost use Rattle.ch_variant.specs.Meaning.{Keeps, KeepsNest, RunsNest};
ghost use Rattle.ch_variant.specs.Refusals.{PairIsLeast, StepIsLeast};
ghost use Rattle.ch_variant.specs.declared.error.ApplyError.TheVariants.{Refused};

use crate::arguments::Setting;
use crate::commands::{copied, reordered};
use crate::error::ApplyError;
use ch_depends::{Pair, reversed};
use ch_nest::Nest;
use ch_reduce::reversed_sum;
use ch_script::{Command, Recipe, Refusal};
use ch_space::{ShapeError, Space, space_of};
use ch_timed::Timed;
use std::alloc::{AllocError, Global};

/// The number of a command, from 1 on, and whether sums may be made in any order there.
#[derive(Clone, Copy, Debug)]
struct Turn {
    step: u32,
    sums: bool,
}

/// Whether a command lets sums be made in any order from then on.
fn frees_sums(command: &Command) -> bool
    ensures { result ≡ frees_sums command.now }
{
    match command {
        Command::Accumulate => true,
        _ => false,
    }
}

/// The refusal of the command of this number by the shape of the program.
fn forbidden(step: u32, error: ShapeError) -> ApplyError
    ensures { result ≡ forbidden_at step error }
{
    match error {
        ShapeError::Shape(cause) => ApplyError::Refused(Refusal::Shape { step, cause }),
        ShapeError::Memory => ApplyError::Memory,
    }
}

/// The refusal of the command of this number, which reverses a pair.
fn illegal(step: u32, pair: Pair) -> ApplyError
    ensures { result ≡ Refused (Illegal step pair.first pair.second pair.cell) }
{
    let Pair {
        first,
        second,
        cell,
    } = pair;
    ApplyError::Refused(Refusal::Illegal {
        step,
        first,
        second,
        cell,
    })
}

/// The least pair of conflicting statement instances that the new program has the other way round.
/// Where sums may be made in any order, two that add to one array don't conflict.
fn turned(alloc: Global, sums: bool, old: &Space, new: &Space) -> Result<Option<Pair>, AllocError>
    requires { AreAmong old.now.list new.now.list }
    ensures { IfOk result (λ pair. pair ≡ pair_of (turned sums old.now.list new.now.list)) }
{
    if sums {
        return reversed_sum(alloc, old, new);
    }
    reversed(alloc, old, new)
}

/// The program after the command of this number, which gives another order: its shape may forbid
/// the command, or the least pair of statement instances that it would reverse does.
fn reorder(
    alloc: Global,
    space: &Space,
    setting: &Setting,
    turn: Turn,
    command: &Command,
) -> Result<Space, ApplyError>
    requires few { space.now.commands < 32 }
    requires orders { copies command.now ≡ false }
    requires moves { frees_sums command.now ≡ false }
    requires fits { IsTrue (command_fits (length setting.now.values.now) command.now) }
    requires small { All (IsAtMost (2 ^ 20)) setting.now.values.now }
    ensures answer { IsAnswer result (one (scope setting.now.nest.now setting.now.values.now)
        turn.sums turn.step command.now space.now) }
    ensures keeps { IfOk result (λ new. Keeps space.now new) }
    ensures parts { IfOk result (IsBehind space.now) }
    ensures least { IfErr result (StepIsLeast (scope setting.now.nest.now
        setting.now.values.now) turn.sums turn.step command.now space.now) }
{
    let new = match reordered(alloc, space, setting, command) {
        Ok(new) => new,
        Err(error) => return Err(forbidden(turn.step, error)),
    };
    space.known();
    new.known();
    match turned(alloc, turn.sums, space, &new)? {
        None => Ok(new),
        Some(pair) => Err(illegal(turn.step, pair)),
    }
}

/// The program after the command of this number, which may be a copy: that keeps the meaning
/// whatever depends on what, so that its shape alone may forbid it.
fn one(
    alloc: Global,
    space: &Space,
    setting: &Setting,
    turn: Turn,
    command: &Command,
) -> Result<Space, ApplyError>
    requires few { space.now.commands < 32 }
    requires buffers { length space.now.temps < 32 }
    requires moves { frees_sums command.now ≡ false }
    requires fits { IsTrue (command_fits (length setting.now.values.now) command.now) }
    requires small { All (IsAtMost (2 ^ 20)) setting.now.values.now }
    ensures answer { IsAnswer result (one (scope setting.now.nest.now setting.now.values.now)
        turn.sums turn.step command.now space.now) }
    ensures keeps { IfOk result (λ new. Keeps space.now new) }
    ensures parts { IfOk result (IsBehind space.now) }
    ensures least { IfErr result (StepIsLeast (scope setting.now.nest.now
        setting.now.values.now) turn.sums turn.step command.now space.now) }
{
    match command {
        Command::Datacopy {
            statement,
            level,
            array,
        } => match copied(alloc, space, setting, *statement, *level, array) {
            Ok(new) => Ok(new),
            Err(error) => Err(forbidden(turn.step, error)),
        },
        _ => reorder(alloc, space, setting, turn, command),
    }
}

/// What a recipe makes of a sound nest, at these values of its parameters: the commands one after
/// another, each judged on the program that those before it left. A command is refused by the first
/// cause that the shape of that program gives, or else by the least pair of conflicting statement
/// instances, in the order before the command, that it would execute the other way round: such an
/// order would break a dependence (Wolf and Lam; Feautrier). Behind `accumulate` two additions to
/// one array don't conflict (Pugh and Wonnacott), since a wrapping sum is the same in any order. A
/// copy into a buffer reverses nothing.
///
/// There is one value, of magnitude at most 2^20, for each parameter. The conditions between the
/// parameters aren't looked at.
pub fn apply(
    alloc: Global,
    nest: &Nest,
    recipe: &Recipe,
    values: &[i64],
) -> Result<Space, ApplyError>
    requires sound { IsTrue (is_sound nest.now) }
    requires params { length values.now ≡ length recipe.now.params }
    requires small { All (IsAtMost (2 ^ 20)) values.now }
    ensures answer { IsAnswer result (applied nest.now recipe.now.commands values.now) }
    ensures least { PairIsLeast nest.now recipe.now.commands values.now result }
    ensures arrays { IfOk result (λ space. space.arrays ≡ length nest.now.arrays) }
    ensures well_formed { IfOk result (λ space. IsTrue (is_well_formed space.list)) }
    ensures keeps { IfOk result (λ space. KeepsNest nest.now space.list space.temps) }
    ensures runs { IfOk result (λ space. RunsNest nest.now space.list space.temps) }
{
    recipe.known();
    let setting = Setting { nest, values };
    let mut space = space_of(alloc, nest)?;
    let mut sums = false;
    for (k, command) in recipe.commands.as_slice().iter().enumerate() {
        if frees_sums(command) {
            sums = true;
        } else {
            let turn = Turn {
                step: k as u32 + 1,
                sums,
            };
            space = one(alloc, &space, &setting, turn, command)?;
        }
    }
    space.known();
    Ok(space)
}
