//! The lines of conditions and of commands.
ghost use Rattle.std.specs.Prelude.{◌≡◌, ◌++◌, IsTrue, OnOk, codes};
ghost use Rattle.std.specs.List.{list_all};
ghost use Rattle.std.specs.Char.{is_ascii};
ghost use Rattle.ch_script.specs.Words.{word_text};
ghost use Rattle.ch_scriptprint.specs.Printed.{arg_text, args_text, arguments_text, command_line};
ghost use Rattle.ch_scriptprint.specs.Printed.{condition_text, group_text, pair_text};
ghost use Rattle.ch_scriptprint.specs.Printed.{require_line, triple_text, two, word_of_command};

use crate::arguments::{put_arg, put_args};
use crate::conditions::put_condition;
use ch_affine::Text;
use ch_script::{Arg, Command, Cond};
use std::alloc::AllocError;

/// The word of a command.
fn word_of(command: &Command) -> &'static [u8]
    ensures value { result.now ≡ word_text (word_of_command command.now) }
    ensures ascii { IsTrue (list_all is_ascii result.now) }
{
    match command {
        Command::Permute { .. } => b"permute",
        Command::Skew { .. } => b"skew",
        Command::Shift { .. } => b"shift",
        Command::Tile { .. } => b"tile",
        Command::Unroll { .. } => b"unroll",
        Command::Split { .. } => b"split",
        Command::Peel { .. } => b"peel",
        Command::Fuse { .. } => b"fuse",
        Command::Distribute { .. } => b"distribute",
        Command::Datacopy { .. } => b"datacopy",
        Command::Accumulate => b"accumulate",
    }
}

fn put_comma(out: &mut Text) -> Result<(), AllocError>
    ensures { OnOk result (out.new ≡ out.old ++ codes ", ") }
{
    out.append(b", ")
}

fn put_pair(out: &mut Text, params: &[Text], one: Arg, other: Arg) -> Result<(), AllocError>
    ensures { OnOk result (out.new ≡ out.old ++ pair_text params.now one other) }
{
    put_arg(out, params, one)?;
    put_comma(out)?;
    put_arg(out, params, other)
}

fn put_triple(
    out: &mut Text,
    params: &[Text],
    one: Arg,
    other: Arg,
    third: Arg,
) -> Result<(), AllocError>
    ensures { OnOk result (out.new ≡ out.old ++ triple_text params.now one other third) }
{
    put_pair(out, params, one, other)?;
    put_comma(out)?;
    put_arg(out, params, third)
}

/// Adds the arguments of a fusion or a distribution, with which those of others begin.
fn put_group(
    out: &mut Text,
    params: &[Text],
    statements: &[Arg],
    level: Arg,
) -> Result<(), AllocError>
    ensures { OnOk result (out.new ≡ out.old ++ group_text params.now statements.now level) }
{
    put_args(out, params, statements)?;
    put_comma(out)?;
    put_arg(out, params, level)
}

fn put_permute(
    out: &mut Text,
    params: &[Text],
    statement: Arg,
    order: &[Arg],
) -> Result<(), AllocError>
    ensures { OnOk result
        (out.new ≡ out.old ++ two (arg_text params.now statement) (args_text params.now order.now)) }
{
    put_arg(out, params, statement)?;
    put_comma(out)?;
    put_args(out, params, order)
}

fn put_skew(
    out: &mut Text,
    params: &[Text],
    statements: &[Arg],
    level: Arg,
    amounts: &[Arg],
) -> Result<(), AllocError>
    ensures { OnOk result
        (out.new ≡ out.old ++ two (group_text params.now statements.now level) (args_text params.now amounts.now)) }
{
    put_group(out, params, statements, level)?;
    put_comma(out)?;
    put_args(out, params, amounts)
}

fn put_shift(
    out: &mut Text,
    params: &[Text],
    statements: &[Arg],
    level: Arg,
    amount: Arg,
) -> Result<(), AllocError>
    ensures { OnOk result
        (out.new ≡ out.old ++ two (group_text params.now statements.now level) (arg_text params.now amount)) }
{
    put_group(out, params, statements, level)?;
    put_comma(out)?;
    put_arg(out, params, amount)
}

fn put_tile(
    out: &mut Text,
    params: &[Text],
    statement: Arg,
    level: Arg,
    size: Arg,
    outer: Arg,
) -> Result<(), AllocError>
    ensures { OnOk result
        (out.new ≡ out.old ++ two (triple_text params.now statement level size) (arg_text params.now outer)) }
{
    put_triple(out, params, statement, level, size)?;
    put_comma(out)?;
    put_arg(out, params, outer)
}

fn put_split(
    out: &mut Text,
    params: &[Text],
    statement: Arg,
    level: Arg,
    condition: &Cond,
) -> Result<(), AllocError>
    ensures { OnOk result
        (out.new ≡ out.old ++ two (pair_text params.now statement level) (condition_text params.now condition.now)) }
{
    put_pair(out, params, statement, level)?;
    put_comma(out)?;
    put_condition(out, params, condition)
}

fn put_datacopy(
    out: &mut Text,
    params: &[Text],
    statement: Arg,
    level: Arg,
    array: &Text,
) -> Result<(), AllocError>
    ensures { OnOk result
        (out.new ≡ out.old ++ two (pair_text params.now statement level) array.now) }
{
    put_pair(out, params, statement, level)?;
    put_comma(out)?;
    out.append(array.as_bytes())
}

/// Adds the arguments of a command.
fn put_arguments(out: &mut Text, params: &[Text], command: &Command) -> Result<(), AllocError>
    ensures { OnOk result (out.new ≡ out.old ++ arguments_text params.now command.now) }
{
    match command {
        Command::Permute { statement, order } => {
            put_permute(out, params, *statement, order.as_slice())
        }
        Command::Skew {
            statements,
            level,
            amounts,
        } => put_skew(
            out,
            params,
            statements.as_slice(),
            *level,
            amounts.as_slice(),
        ),
        Command::Shift {
            statements,
            level,
            amount,
        } => put_shift(out, params, statements.as_slice(), *level, *amount),
        Command::Tile {
            statement,
            level,
            size,
            outer,
        } => put_tile(out, params, *statement, *level, *size, *outer),
        Command::Unroll {
            statement,
            level,
            amount,
        } => put_triple(out, params, *statement, *level, *amount),
        Command::Split {
            statement,
            level,
            condition,
        } => put_split(out, params, *statement, *level, condition),
        Command::Peel {
            statement,
            level,
            count,
        } => put_triple(out, params, *statement, *level, *count),
        Command::Fuse { statements, level } | Command::Distribute { statements, level } => {
            put_group(out, params, statements.as_slice(), *level)
        }
        Command::Datacopy {
            statement,
            level,
            array,
        } => put_datacopy(out, params, *statement, *level, array),
        Command::Accumulate => Ok(()),
    }
}

/// Adds the beginning of a line, up to the opening parenthesis.
fn put_word(out: &mut Text, word: &[u8]) -> Result<(), AllocError>
    requires ascii { IsTrue (list_all is_ascii word.now) }
    ensures { OnOk result (out.new ≡ out.old ++ (codes "    " ++ word.now ++ codes "(")) }
{
    out.append(b"    ")?;
    out.append(word)?;
    out.append(b"(")
}

/// Adds the line of a condition between parameters.
pub(crate) fn put_require(
    out: &mut Text,
    params: &[Text],
    condition: &Cond,
) -> Result<(), AllocError>
    ensures { OnOk result (out.new ≡ out.old ++ require_line params.now condition.now) }
{
    put_word(out, b"require")?;
    put_condition(out, params, condition)?;
    out.append(b");\n")
}

/// Adds the line of a command.
pub(crate) fn put_command(
    out: &mut Text,
    params: &[Text],
    command: &Command,
) -> Result<(), AllocError>
    ensures { OnOk result (out.new ≡ out.old ++ command_line params.now command.now) }
{
    put_word(out, word_of(command))?;
    put_arguments(out, params, command)?;
    out.append(b");\n")
}
