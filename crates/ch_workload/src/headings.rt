//! How a session begins.
ghost use Rattle.std.specs.Prelude.{◌≡◌, ◌<◌, length, IfOk};
ghost use Rattle.ch_nestparse.specs.Gives.{Gives};
ghost use Rattle.ch_workload.specs.Headings.{heading_at, program_line_at, recipe_line_at};

use crate::names::{Scope, program, recipe};
use ch_affine::Text;
use ch_lex::{Code2, Keyword, ParseError, Sign, Token};
use ch_nestparse::{keyword, name, sign};

/// A session's name, and the numbers of its program and its recipe.
#[derive(Drop)]
pub struct Heading {
    pub name: Text,
    pub program: u32,
    pub recipe: u32,
}

/// The line of a session's program.
#[tactic(auto, unfolding(crate::specs::Headings::program_line_at))]
fn program_line<'a>(
    scope: &Scope<'_, '_>,
    tokens: &'a [Token],
) -> Result<(u32, &'a [Token]), ParseError>
    ensures exact { Gives (λ r.
        (r.0, r.1.now)) result (program_line_at scope.now.bytes.now scope.now.programs.now tokens.now) }
    ensures inside { IfOk result (λ r. r.0 < length scope.now.programs.now) }
{
    let rest = keyword(scope.bytes, Code2::D2, Keyword::Program, tokens)?;
    let (number, rest) = program(scope, rest)?;
    let rest = sign(scope.bytes, Code2::D2, Sign::Semicolon, rest)?;
    Ok((number, rest))
}

/// The line of a session's recipe.
#[tactic(auto, unfolding(crate::specs::Headings::recipe_line_at))]
fn recipe_line<'a>(
    scope: &Scope<'_, '_>,
    tokens: &'a [Token],
) -> Result<(u32, &'a [Token]), ParseError>
    ensures exact { Gives (λ r.
        (r.0, r.1.now)) result (recipe_line_at scope.now.bytes.now scope.now.recipes.now tokens.now) }
    ensures inside { IfOk result (λ r. r.0 < length scope.now.recipes.now) }
{
    let rest = keyword(scope.bytes, Code2::D2, Keyword::Recipe, tokens)?;
    let (number, rest) = recipe(scope, rest)?;
    let rest = sign(scope.bytes, Code2::D2, Sign::Semicolon, rest)?;
    Ok((number, rest))
}

/// A session up to the line of its recipe.
#[tactic(auto, unfolding(crate::specs::Headings::heading_at))]
pub(crate) fn begun<'a>(
    scope: &Scope<'_, '_>,
    tokens: &'a [Token],
) -> Result<(Heading, &'a [Token]), ParseError>
    ensures exact { Gives (λ r.
        (r.0, r.1.now)) result (heading_at scope.now.bytes.now scope.now.programs.now scope.now.recipes.now tokens.now) }
    ensures program { IfOk result (λ r. r.0.program < length scope.now.programs.now) }
    ensures recipe { IfOk result (λ r. r.0.recipe < length scope.now.recipes.now) }
{
    let rest = keyword(scope.bytes, Code2::D2, Keyword::Session, tokens)?;
    let (text, rest) = name(scope.bytes, Code2::D2, rest)?;
    let rest = sign(scope.bytes, Code2::D2, Sign::LeftBrace, rest)?;
    let (program, rest) = program_line(scope, rest)?;
    let (recipe, rest) = recipe_line(scope, rest)?;
    let name = Text::of(scope.alloc, text)?;
    let heading = Heading {
        name,
        program,
        recipe,
    };
    Ok((heading, rest))
}
