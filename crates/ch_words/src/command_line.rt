ghost use Rattle.std.specs.Prelude.{◌≡◌, false, IfOk, map, string_bytes};
ghost use Rattle.clap.specs.Words.{app_of, rule_of, fault_of, found_of};
ghost use Rattle.clap.specs.Words.{rows_of, matches_of, FailsBy};
ghost use Rattle.ch_words.specs.CommandLine.{stated, bare, command_word, valued_option};

use clap::{Arg, ArgMatches, Command, Error};
use std::alloc::{AllocError, Global};

/// An option with one value.
fn valued_option<'a>(alloc: Global, name: &'a str) -> Arg<'a>
    ensures rule { rule_of result ≡ valued_option name.entry.now }
    ensures local { result.global ≡ false }
{
    Arg::new(alloc, name).long(name)
}

/// The one word that must stand there.
fn command_word<'a>(alloc: Global) -> Arg<'a>
    ensures rule { rule_of result ≡ command_word }
    ensures local { result.global ≡ false }
{
    Arg::new(alloc, "command").required(true)
}

/// The command before it has arguments. The words begin after the program's name, and there is no
/// help.
fn bare<'a>(alloc: Global) -> Command<'a>
    ensures { app_of result ≡ bare }
{
    Command::new(alloc, "chilltune")
        .no_binary_name(true)
        .disable_help_flag(true)
}

/// The command line of the program.
pub fn command_line<'a>(alloc: Global) -> Result<Command<'a>, AllocError>
    ensures { IfOk result (λ command. app_of command ≡ stated) }
{
    bare(alloc)
        .arg(command_word(alloc))?
        .arg(valued_option(alloc, "at"))?
        .arg(valued_option(alloc, "builders"))?
        .arg(valued_option(alloc, "arrays"))?
        .arg(valued_option(alloc, "number"))
}

/// What the words have for each argument, or why they aren't in the set that `command` takes.
pub fn matched<'a>(command: Command<'a>, words: &'a [String]) -> Result<ArgMatches<'a>, Error>
    requires { app_of command ≡ stated }
    ensures matches { IfOk result (λ m. rows_of (found_of m)
        ≡ matches_of stated (map string_bytes words.entry.now)) }
    ensures faults { FailsBy (fault_of stated (map string_bytes words.entry.now)) result }
{
    command.try_get_matches_from(words)
}
