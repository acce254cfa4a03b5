ghost use Rattle.std.specs.Prelude.{◌≡◌, IfOk, map, string_bytes};
ghost use Rattle.clap.specs.Words.{found_of, rows_of};
ghost use Rattle.ch_words.specs.Options.{written};
ghost use Rattle.ch_words.specs.Requests.{reads_input, request_of, request_in, request_by, run_by};

use crate::command_line::{command_line, matched};
use crate::options::{CommandName, Options, command_named, options_in};
use ch_affine::List;
use clap::ArgMatches;
use clap::error::ErrorKind;
use std::alloc::{AllocError, Global};

/// What the program is asked to do.
#[derive(Debug, Drop)]
pub enum Request {
    /// Print each program's arrays after one run of its nest, or only their sums.
    Eval { sums: bool },
    /// Tell for each session whether the recipe is legal at the point with these values, or at the
    /// centre.
    Check { at: Option<List<i64>> },
    /// The same, with the pieces and the generated code.
    Show { at: Option<List<i64>> },
    /// Search each session without threads.
    Search,
    /// Run all clients, with so many builders beside them, and print arrays or only their sums.
    Run { builders: u32, sums: bool },
    /// Judge a transcript.
    Replay,
    /// Search the generated deck with this number.
    Demo { number: u32 },
}

impl Request {
    /// Whether the request is about the input: `demo` makes its deck from a number.
    pub fn reads_input(&self) -> bool
        ensures { result ≡ reads_input self.now }
    {
        !matches!(self, Request::Demo { .. })
    }
}

/// What `run` is asked to do.
fn run(options: &Options<'_>) -> Option<Request>
    ensures { result ≡ run_by (written options.now) }
{
    Some(Request::Run {
        builders: options.builder_count()?,
        sums: options.sums()?,
    })
}

/// What the command is asked to do, where no option is there that it doesn't use.
fn request_by(
    alloc: Global,
    command: CommandName,
    options: &Options<'_>,
) -> Result<Option<Request>, AllocError>
    ensures { IfOk result (λ request. request ≡ request_by command (written options.now)) }
{
    Ok(match command {
        CommandName::Eval => options.sums().map(|sums| Request::Eval { sums }),
        CommandName::Check => options.place(alloc)?.map(|at| Request::Check { at }),
        CommandName::Show => options.place(alloc)?.map(|at| Request::Show { at }),
        CommandName::Search => Some(Request::Search),
        CommandName::Run => run(options),
        CommandName::Replay => Some(Request::Replay),
        CommandName::Demo => options.deck_number().map(|number| Request::Demo { number }),
    })
}

/// What was matched asks for.
fn request_in(alloc: Global, matches: &ArgMatches<'_>) -> Result<Option<Request>, AllocError>
    ensures { IfOk result (λ request. request ≡ request_in (rows_of (found_of matches.now))) }
{
    let Some(word) = matches.get_str("command") else {
        return Ok(None);
    };
    let Some(command) = command_named(word) else {
        return Ok(None);
    };
    let options = options_in(matches);
    if options.has_unused(command) {
        return Ok(None);
    }
    request_by(alloc, command, &options)
}

/// What the words after the program's name ask for, and `None` exactly where they aren't in the
/// stated set.
pub fn read_words(alloc: Global, words: &[String]) -> Result<Option<Request>, AllocError>
    ensures { IfOk result (λ request. request ≡ request_of (map string_bytes words.now)) }
{
    match matched(command_line(alloc)?, words) {
        Ok(matches) => request_in(alloc, &matches),
        Err(error) => match error.kind() {
            // `clap` tells of missing memory by this kind alone, so there is no error to hand on.
            ErrorKind::OutOfMemory => Err(AllocError),
            _ => Ok(None),
        },
    }
}
