ghost use Rattle.std.specs.Prelude.{◌≡◌, option_map, codes, IfOk};
ghost use Rattle.std.specs.List.{list_any};
ghost use Rattle.std.specs.Option.{is_some};
ghost use Rattle.clap.specs.Words.{found_of, first_of, rows_of};
ghost use Rattle.ch_words.specs.Options.{command_named, values_in, written, unused_by};
ghost use Rattle.ch_words.specs.Options.{place_of, builders_of, sums_of, deck_number_of};

use crate::numbers::{LARGEST_NUMBER, MOST_BUILDERS, natural_of, wholes_of};
use ch_affine::List;
use clap::ArgMatches;
use std::alloc::{AllocError, Global};

/// The name of a command.
#[derive(Clone, Copy, Debug, PartialEq, Eq)]
pub enum CommandName {
    Eval,
    Check,
    Show,
    Search,
    Run,
    Replay,
    Demo,
}

/// The command with this name.
pub fn command_named(word: &str) -> Option<CommandName>
    ensures { result ≡ command_named word.now }
{
    if word == "eval" {
        Some(CommandName::Eval)
    } else if word == "check" {
        Some(CommandName::Check)
    } else if word == "show" {
        Some(CommandName::Show)
    } else if word == "search" {
        Some(CommandName::Search)
    } else if word == "run" {
        Some(CommandName::Run)
    } else if word == "replay" {
        Some(CommandName::Replay)
    } else if word == "demo" {
        Some(CommandName::Demo)
    } else {
        None
    }
}

/// The options' values, each as it was written, where it was.
#[derive(Clone, Copy, Debug)]
pub struct Options<'a> {
    pub at: Option<&'a str>,
    pub builders: Option<&'a str>,
    pub arrays: Option<&'a str>,
    pub number: Option<&'a str>,
}

/// The values that were matched.
pub fn options_in<'a>(matches: &ArgMatches<'a>) -> Options<'a>
    ensures { written result ≡ values_in (rows_of (found_of matches.now)) }
{
    Options {
        at: matches.get_str("at"),
        builders: matches.get_str("builders"),
        arrays: matches.get_str("arrays"),
        number: matches.get_str("number"),
    }
}

impl Options<'_> {
    /// Whether an option is there that the command doesn't use.
    pub fn has_unused(&self, command: CommandName) -> bool
        ensures { result ≡ list_any is_some (unused_by command (written self.now)) }
    {
        let (at, builders) = (self.at.is_some(), self.builders.is_some());
        let (arrays, number) = (self.arrays.is_some(), self.number.is_some());
        match command {
            CommandName::Eval => at || builders || number,
            CommandName::Check => builders || arrays || number,
            CommandName::Show => builders || arrays || number,
            CommandName::Search => at || builders || arrays || number,
            CommandName::Run => at || number,
            CommandName::Replay => at || builders || arrays || number,
            CommandName::Demo => at || builders || arrays,
        }
    }

    /// The values of `--at`, and within, `None` where it isn't there. `None` where it is no list of
    /// whole numbers.
    pub fn place(&self, alloc: Global) -> Result<Option<Option<List<i64>>>, AllocError>
        ensures { IfOk result (λ place. place ≡ place_of (written self.now).at) }
    {
        let Some(text) = self.at else {
            return Ok(Some(None));
        };
        match wholes_of(alloc, text)? {
            Some(values) => Ok(Some(Some(values))),
            None => Ok(None),
        }
    }

    /// How many builders `--builders` asks for. `None` where its value isn't such a number.
    pub fn builder_count(&self) -> Option<u32>
        ensures { result ≡ builders_of (written self.now).builders }
    {
        match self.builders {
            None => Some(1),
            Some(text) => natural_of(MOST_BUILDERS, text.as_bytes()),
        }
    }

    /// Whether `--arrays` asks for sums. `None` where its value is neither `all` nor `sum`.
    pub fn sums(&self) -> Option<bool>
        ensures { result ≡ sums_of (written self.now).arrays }
    {
        let Some(text) = self.arrays else {
            return Some(false);
        };
        if text == "all" {
            Some(false)
        } else if text == "sum" {
            Some(true)
        } else {
            None
        }
    }

    /// The number of `--number`. `None` where it isn't there or its value isn't such a number.
    pub fn deck_number(&self) -> Option<u32>
        ensures { result ≡ deck_number_of (written self.now).number }
    {
        natural_of(LARGEST_NUMBER, self.number?.as_bytes())
    }
}
