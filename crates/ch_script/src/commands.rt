//! The commands of a recipe, and the conditions before them.
ghost use Rattle.std.specs.Prelude.{◌≡◌, [], length, ◌<◌, ◌^◌};
ghost use Rattle.std.specs.Str.{bytes_eq};
ghost use Rattle.ch_nestparse.specs.Gives.{Gives};
ghost use Rattle.ch_script.specs.Commands.{arguments_at, begins_require, command_at};
ghost use Rattle.ch_script.specs.Commands.{commands_at, datacopy_at, distribute_at};
ghost use Rattle.ch_script.specs.Commands.{fuse_at, is_more, known_word, peel_at};
ghost use Rattle.ch_script.specs.Commands.{permute_at, require_at, requires_at, shift_at};
ghost use Rattle.ch_script.specs.Commands.{skew_at, split_at, tile_at, unroll_at};
ghost use Rattle.ch_script.specs.Words.{require_text};

use crate::arguments::{arg, arg_comma, list, list_comma};
use crate::conditions::condition;
use crate::limits::{MOST_COMMANDS, MOST_CONDITIONS};
use crate::names::Scope;
use crate::recipe::{Command, Cond, Purpose};
use crate::word::{Word, word_of};
use ch_affine::{List, Text};
use ch_lex::{Code2, ParseError, Sign, Token};
use ch_nestparse::{Look, Readings, name, next_is, place, refused, repeat, seen, sign, text_at};

#[tactic(auto, unfolding(crate::specs::Commands::permute_at))]
fn permute<'a>(
    scope: &Scope<'_, '_>,
    tokens: &'a [Token],
) -> Result<(Command, &'a [Token]), ParseError>
    ensures { Gives (λ r.
        (r.0, r.1.now)) result (permute_at scope.now.bytes.now scope.now.params.now tokens.now) }
{
    let (statement, rest) = arg_comma(scope, tokens)?;
    let (order, rest) = list(scope, rest)?;
    let command = Command::Permute { statement, order };
    Ok((command, rest))
}

#[tactic(auto, unfolding(crate::specs::Commands::skew_at))]
fn skew<'a>(
    scope: &Scope<'_, '_>,
    tokens: &'a [Token],
) -> Result<(Command, &'a [Token]), ParseError>
    ensures { Gives (λ r.
        (r.0, r.1.now)) result (skew_at scope.now.bytes.now scope.now.params.now tokens.now) }
{
    let (statements, rest) = list_comma(scope, tokens)?;
    let (level, rest) = arg_comma(scope, rest)?;
    let (amounts, rest) = list(scope, rest)?;
    let command = Command::Skew {
        statements,
        level,
        amounts,
    };
    Ok((command, rest))
}

#[tactic(auto, unfolding(crate::specs::Commands::shift_at))]
fn shift<'a>(
    scope: &Scope<'_, '_>,
    tokens: &'a [Token],
) -> Result<(Command, &'a [Token]), ParseError>
    ensures { Gives (λ r.
        (r.0, r.1.now)) result (shift_at scope.now.bytes.now scope.now.params.now tokens.now) }
{
    let (statements, rest) = list_comma(scope, tokens)?;
    let (level, rest) = arg_comma(scope, rest)?;
    let (amount, rest) = arg(scope, rest)?;
    let command = Command::Shift {
        statements,
        level,
        amount,
    };
    Ok((command, rest))
}

#[tactic(auto, unfolding(crate::specs::Commands::tile_at))]
fn tile<'a>(
    scope: &Scope<'_, '_>,
    tokens: &'a [Token],
) -> Result<(Command, &'a [Token]), ParseError>
    ensures { Gives (λ r.
        (r.0, r.1.now)) result (tile_at scope.now.bytes.now scope.now.params.now tokens.now) }
{
    let (statement, rest) = arg_comma(scope, tokens)?;
    let (level, rest) = arg_comma(scope, rest)?;
    let (size, rest) = arg_comma(scope, rest)?;
    let (outer, rest) = arg(scope, rest)?;
    let command = Command::Tile {
        statement,
        level,
        size,
        outer,
    };
    Ok((command, rest))
}

#[tactic(auto, unfolding(crate::specs::Commands::unroll_at))]
fn unroll<'a>(
    scope: &Scope<'_, '_>,
    tokens: &'a [Token],
) -> Result<(Command, &'a [Token]), ParseError>
    ensures { Gives (λ r.
        (r.0, r.1.now)) result (unroll_at scope.now.bytes.now scope.now.params.now tokens.now) }
{
    let (statement, rest) = arg_comma(scope, tokens)?;
    let (level, rest) = arg_comma(scope, rest)?;
    let (amount, rest) = arg(scope, rest)?;
    let command = Command::Unroll {
        statement,
        level,
        amount,
    };
    Ok((command, rest))
}

#[tactic(auto, unfolding(crate::specs::Commands::split_at))]
fn split<'a>(
    scope: &Scope<'_, '_>,
    tokens: &'a [Token],
) -> Result<(Command, &'a [Token]), ParseError>
    ensures { Gives (λ r.
        (r.0, r.1.now)) result (split_at scope.now.bytes.now scope.now.params.now tokens.now) }
{
    let (statement, rest) = arg_comma(scope, tokens)?;
    let (level, rest) = arg_comma(scope, rest)?;
    let (condition, rest) = condition(scope, Purpose::Split, rest)?;
    let command = Command::Split {
        statement,
        level,
        condition,
    };
    Ok((command, rest))
}

#[tactic(auto, unfolding(crate::specs::Commands::peel_at))]
fn peel<'a>(
    scope: &Scope<'_, '_>,
    tokens: &'a [Token],
) -> Result<(Command, &'a [Token]), ParseError>
    ensures { Gives (λ r.
        (r.0, r.1.now)) result (peel_at scope.now.bytes.now scope.now.params.now tokens.now) }
{
    let (statement, rest) = arg_comma(scope, tokens)?;
    let (level, rest) = arg_comma(scope, rest)?;
    let (count, rest) = arg(scope, rest)?;
    let command = Command::Peel {
        statement,
        level,
        count,
    };
    Ok((command, rest))
}

#[tactic(auto, unfolding(crate::specs::Commands::fuse_at))]
fn fuse<'a>(
    scope: &Scope<'_, '_>,
    tokens: &'a [Token],
) -> Result<(Command, &'a [Token]), ParseError>
    ensures { Gives (λ r.
        (r.0, r.1.now)) result (fuse_at scope.now.bytes.now scope.now.params.now tokens.now) }
{
    let (statements, rest) = list_comma(scope, tokens)?;
    let (level, rest) = arg(scope, rest)?;
    let command = Command::Fuse { statements, level };
    Ok((command, rest))
}

#[tactic(auto, unfolding(crate::specs::Commands::distribute_at))]
fn distribute<'a>(
    scope: &Scope<'_, '_>,
    tokens: &'a [Token],
) -> Result<(Command, &'a [Token]), ParseError>
    ensures { Gives (λ r.
        (r.0, r.1.now)) result (distribute_at scope.now.bytes.now scope.now.params.now tokens.now) }
{
    let (statements, rest) = list_comma(scope, tokens)?;
    let (level, rest) = arg(scope, rest)?;
    let command = Command::Distribute { statements, level };
    Ok((command, rest))
}

#[tactic(auto, unfolding(crate::specs::Commands::datacopy_at))]
fn datacopy<'a>(
    scope: &Scope<'_, '_>,
    tokens: &'a [Token],
) -> Result<(Command, &'a [Token]), ParseError>
    ensures { Gives (λ r.
        (r.0, r.1.now)) result (datacopy_at scope.now.bytes.now scope.now.params.now tokens.now) }
{
    let (statement, rest) = arg_comma(scope, tokens)?;
    let (level, rest) = arg_comma(scope, rest)?;
    let (text, rest) = name(scope.bytes, Code2::R1, rest)?;
    let array = Text::of(scope.alloc, text)?;
    let command = Command::Datacopy {
        statement,
        level,
        array,
    };
    Ok((command, rest))
}

/// What stands between the parentheses of a command.
fn arguments<'a>(
    scope: &Scope<'_, '_>,
    word: Word,
    tokens: &'a [Token],
) -> Result<(Command, &'a [Token]), ParseError>
    ensures { Gives (λ r.
        (r.0, r.1.now)) result (arguments_at word scope.now.bytes.now scope.now.params.now tokens.now) }
{
    match word {
        Word::Permute => permute(scope, tokens),
        Word::Skew => skew(scope, tokens),
        Word::Shift => shift(scope, tokens),
        Word::Tile => tile(scope, tokens),
        Word::Unroll => unroll(scope, tokens),
        Word::Split => split(scope, tokens),
        Word::Peel => peel(scope, tokens),
        Word::Fuse => fuse(scope, tokens),
        Word::Distribute => distribute(scope, tokens),
        Word::Datacopy => datacopy(scope, tokens),
        Word::Accumulate => Ok((Command::Accumulate, tokens)),
    }
}

fn known_word(at: u32, word: Option<Word>) -> Result<Word, ParseError>
    ensures { Gives (λ w. w) result (known_word at word) }
{
    match word {
        Some(word) => Ok(word),
        None => Err(refused(Code2::R2, at)),
    }
}

/// The commands.
#[derive(Drop)]
struct MoreCommands<'r, 't, 's> {
    scope: &'r Scope<'t, 's>,
}

impl Readings for MoreCommands<'_, '_, '_> {
    type State = List<Command>;

    ghost goes = { λ s. is_more s.scope.now.bytes.now };

    ghost one = { λ s. command_at s.scope.now.bytes.now s.scope.now.params.now };

    ghost keeps = { λ s commands. Unit {0} };

    fn goes(&self, tokens: &[Token]) -> bool {
        !next_is(self.scope.bytes, Sign::RightBrace, tokens)
    }

    #[tactic(auto, unfolding(crate::specs::Commands::command_at))]
    fn one<'a>(
        &self,
        commands: List<Command>,
        tokens: &'a [Token],
    ) -> Result<(List<Command>, &'a [Token]), ParseError> {
        let mut commands = commands;
        let bytes = self.scope.bytes;
        let at = place(bytes, tokens);
        let (text, rest) = name(bytes, Code2::R1, tokens)?;
        let word = known_word(at, word_of(text))?;
        if commands.len() >= MOST_COMMANDS {
            return Err(refused(Code2::R4, at));
        }
        let rest = sign(bytes, Code2::R1, Sign::LeftParen, rest)?;
        let (command, rest) = arguments(self.scope, word, rest)?;
        let rest = sign(bytes, Code2::R1, Sign::RightParen, rest)?;
        let rest = sign(bytes, Code2::R1, Sign::Semicolon, rest)?;
        commands.push(command)?;
        Ok((commands, rest))
    }
}

/// The commands up to the closing brace.
#[tactic(auto, unfolding(crate::specs::Commands::commands_at))]
pub(crate) fn commands<'a>(
    scope: &Scope<'_, '_>,
    tokens: &'a [Token],
) -> Result<(List<Command>, &'a [Token]), ParseError>
    ensures { Gives (λ r.
        (r.0, r.1.now)) result (commands_at scope.now.bytes.now scope.now.params.now tokens.now) }
{
    let none = List::new(scope.alloc);
    repeat(&MoreCommands { scope }, MOST_COMMANDS + 1, none, tokens)
}

fn is_require(text: &[u8]) -> bool
    ensures { result ≡ bytes_eq text.now require_text }
{
    text == b"require".as_slice()
}

fn begins_require(bytes: &[u8], tokens: &[Token]) -> bool
    ensures { result ≡ begins_require bytes.now tokens.now }
{
    match seen(bytes, tokens) {
        Look::Name => is_require(text_at(bytes, tokens)),
        _ => false,
    }
}

/// The conditions between parameters.
#[derive(Drop)]
struct MoreConditions<'r, 't, 's> {
    scope: &'r Scope<'t, 's>,
}

impl Readings for MoreConditions<'_, '_, '_> {
    type State = List<Cond>;

    ghost goes = { λ s. begins_require s.scope.now.bytes.now };

    ghost one = { λ s. require_at s.scope.now.bytes.now s.scope.now.params.now };

    ghost keeps = { λ s conditions. Unit {0} };

    fn goes(&self, tokens: &[Token]) -> bool {
        begins_require(self.scope.bytes, tokens)
    }

    #[tactic(auto, unfolding(crate::specs::Commands::require_at))]
    fn one<'a>(
        &self,
        conditions: List<Cond>,
        tokens: &'a [Token],
    ) -> Result<(List<Cond>, &'a [Token]), ParseError> {
        let mut conditions = conditions;
        let bytes = self.scope.bytes;
        let at = place(bytes, tokens);
        let (_word, rest) = name(bytes, Code2::R1, tokens)?;
        if conditions.len() >= MOST_CONDITIONS {
            return Err(refused(Code2::R4, at));
        }
        let rest = sign(bytes, Code2::R1, Sign::LeftParen, rest)?;
        let (condition, rest) = condition(self.scope, Purpose::Require, rest)?;
        let rest = sign(bytes, Code2::R1, Sign::RightParen, rest)?;
        let rest = sign(bytes, Code2::R1, Sign::Semicolon, rest)?;
        conditions.push(condition)?;
        Ok((conditions, rest))
    }
}

/// The conditions before the commands.
#[tactic(auto, unfolding(crate::specs::Commands::requires_at))]
pub(crate) fn conditions<'a>(
    scope: &Scope<'_, '_>,
    tokens: &'a [Token],
) -> Result<(List<Cond>, &'a [Token]), ParseError>
    ensures { Gives (λ r.
        (r.0, r.1.now)) result (requires_at scope.now.bytes.now scope.now.params.now tokens.now) }
{
    let none = List::new(scope.alloc);
    repeat(&MoreConditions { scope }, MOST_CONDITIONS + 1, none, tokens)
}
