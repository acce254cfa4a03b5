ghost use Rattle.std.specs.Prelude.{◌≡◌, ◌<◌, ◌≤◌, ◌^◌, ◌+◌, ◌-◌};
ghost use Rattle.std.specs.Prelude.{length, drop, IfErr, IfOk, IsTrue};
ghost use Rattle.ch_lex.specs.Cut.{IsCut};
ghost use Rattle.ch_nestparse.specs.Gives.{Gives};
ghost use Rattle.ch_nestparse.specs.Inside.{IsWithin};
ghost use Rattle.ch_nestparse.specs.Spelling.{is_name};
ghost use Rattle.ch_script.specs.Recipes.{is_recipe, recipe_of};
ghost use Rattle.ch_script.specs.Sections.{recipe_at, section_at};

use crate::commands::{commands, conditions};
use crate::names::{Scope, Source, params};
use crate::recipe::{Command, Cond, Recipe};
use ch_affine::{List, Text};
use ch_lex::{Code2, Keyword, ParseError, Sign, Token};
use ch_nestparse::{keyword, name, sign};
use std::alloc::Global;

/// A recipe, and the number of the first token behind it.
#[derive(Debug, Drop)]
pub struct ParsedRecipe {
    pub recipe: Recipe,
    pub next: u32,
}

/// The parts of a recipe's text, before a recipe is made of them.
#[derive(Drop)]
struct Parts {
    name: Text,
    params: List<Text>,
    conditions: List<Cond>,
    commands: List<Command>,
}

/// A recipe section, as its grammar says.
#[tactic(auto, unfolding(crate::specs::Sections::section_at))]
fn read_section<'a>(
    source: &Source<'_>,
    tokens: &'a [Token],
) -> Result<(Parts, &'a [Token]), ParseError>
    ensures exact { Gives (λ r.
        (recipe_of r.0.name r.0.params r.0.conditions r.0.commands, r.1.now)) result (section_at source.now.bytes.now tokens.now) }
{
    let bytes = source.bytes;
    let rest = keyword(bytes, Code2::R1, Keyword::Recipe, tokens)?;
    let (text, rest) = name(bytes, Code2::R1, rest)?;
    let rest = sign(bytes, Code2::R1, Sign::LeftParen, rest)?;
    let (params, rest) = params(source, rest)?;
    let rest = sign(bytes, Code2::R1, Sign::LeftBrace, rest)?;
    let scope = Scope {
        alloc: source.alloc,
        bytes,
        params: params.as_slice(),
    };
    let (conditions, rest) = conditions(&scope, rest)?;
    let (commands, rest) = commands(&scope, rest)?;
    let rest = sign(bytes, Code2::R1, Sign::RightBrace, rest)?;
    let name = Text::of(source.alloc, text)?;
    let parts = Parts {
        name,
        params,
        conditions,
        commands,
    };
    Ok((parts, rest))
}

/// The parts of the recipe section whose first token is token `from`, which are a recipe.
#[tactic(auto, using(crate::proofs::SectionsFit::section_recipe, crate::proofs::SectionsFit::section_name, crate::proofs::SectionsFit::section_taken, crate::proofs::SectionsFit::refused_inside))]
fn section<'a>(
    source: &Source<'_>,
    tokens: &'a [Token],
    from: u32,
) -> Result<(Parts, &'a [Token]), ParseError>
    requires short { length source.now.bytes.now ≤ 2 ^ 20 }
    requires cut { IsCut source.now.bytes.now 0 tokens.now }
    requires from { from ≤ length tokens.now }
    ensures exact { Gives (λ r.
        (recipe_of r.0.name r.0.params r.0.conditions r.0.commands, r.1.now)) result (section_at source.now.bytes.now (drop from tokens.now)) }
    ensures recipe { IfOk result (λ r.
        IsTrue (is_recipe (recipe_of r.0.name r.0.params r.0.conditions r.0.commands))) }
    ensures name { IfOk result (λ r. IsTrue (is_name r.0.name)) }
    ensures taken { IfOk result (λ r. length r.1.now + 1 ≤ length tokens.now - from) }
    ensures place { IfErr result (λ e. IsWithin (length source.now.bytes.now) e) }
{
    let (parts, rest) = read_section(source, tokens.split_at(from as usize).1)?;
    Ok((parts, rest))
}

/// The recipe section whose first token, `recipe`, is token `from`: its recipe, or its first
/// refusal.
///
/// The tokens are those of the bytes, of which there are at most 2^20. Then `next` is behind
/// `from`, and the place of a refusal lies in the text or is its end.
///
/// # Errors
///
/// R1 at a token that doesn't fit the grammar; R2 at a name that stands for a command and is none;
/// R3 at an argument's name that is no parameter, a name in a condition that isn't one that may
/// stand there, and at a parameter's name that is repeated or that of a level; R4 at the name of a
/// 7th parameter and at the word of a 33rd command and of a 9th condition.
#[tactic(auto, using(ch_nestparse::proofs::Ascii::cut_ascii, ch_nestparse::proofs::Cuts::few_tokens))]
pub fn parse_recipe(
    alloc: Global,
    tokens: &[Token],
    bytes: &[u8],
    from: u32,
) -> Result<ParsedRecipe, ParseError>
    requires short { length bytes.now ≤ 2 ^ 20 }
    requires cut { IsCut bytes.now 0 tokens.now }
    requires from { from ≤ length tokens.now }
    ensures exact { Gives (λ p. p) result (recipe_at bytes.now tokens.now from) }
    ensures name { IfOk result (λ p. IsTrue (is_name p.recipe.name)) }
    ensures place { IfErr result (λ e. IsWithin (length bytes.now) e) }
    ensures behind { IfOk result (λ p. from < p.next) }
    ensures within { IfOk result (λ p. p.next ≤ length tokens.now) }
{
    let source = Source { alloc, bytes };
    let (parts, rest) = section(&source, tokens, from)?;
    let next = (tokens.len() - rest.len()) as u32;
    let Parts {
        name,
        params,
        conditions,
        commands,
    } = parts;
    let Some(recipe) = Recipe::new(name, params, conditions, commands) else {
        unreachable!()
    };
    Ok(ParsedRecipe { recipe, next })
}
