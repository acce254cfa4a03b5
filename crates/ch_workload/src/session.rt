//! Sessions, and the reader of their sections.
ghost use Rattle.std.specs.Prelude.{◌≡◌, ◌<◌, ◌≤◌, ◌^◌, ◌+◌, ◌-◌, drop, length};
ghost use Rattle.std.specs.Prelude.{pos, IfErr, IfOk, IsTrue, true, false};
ghost use Rattle.std.specs.List.{list_all};
ghost use Rattle.std.specs.Str.{bytes_eq};
ghost use Rattle.ch_grid.specs.Grid.{is_good};
ghost use Rattle.ch_lex.specs.Cut.{IsCut};
ghost use Rattle.ch_lex.specs.declared.error.Code2.TheVariants.{D5};
ghost use Rattle.ch_nestparse.specs.Spelling.{is_name};
ghost use Rattle.ch_workload.specs.Refusals.{Gives};
ghost use Rattle.ch_workload.specs.Sessions.{begins_repeat, closed_at, grid_fits};
ghost use Rattle.ch_workload.specs.Sessions.{has_few_points, numbered, repeats_at};
ghost use Rattle.ch_workload.specs.Sessions.{section_at, session_at, session_fits, times_at};
ghost use Rattle.ch_workload.specs.Tuned.{are_repeats, is_tuned};
ghost use Rattle.ch_workload.specs.Inside.{IsWithin};
ghost use Rattle.ch_workload.specs.declared.error.DeckCode.TheVariants.{Plain};
ghost use Rattle.ch_workload.specs.declared.error.SectionError.TheVariants.{Refused};

use crate::admissible::has_admissible;
use crate::error::{DeckCode, SectionError};
use crate::headings::begun;
use crate::limits::MOST_REPEATS;
use crate::names::{Declared, Scope};
use crate::params::params;
use ch_affine::{List, Text};
use ch_grid::{Grid, Param};
use ch_lex::{Code2, Sign, Token};
use ch_nestparse::{Look, after, number, place, seen, sign, text_at};
use ch_script::Recipe;
use std::alloc::Global;
use std::marker::Model;

/// A session: what is tuned, and over which points.
///
/// By its type a trial is measured 1 to 9 times.
#[derive(Debug, Drop)]
pub struct SessionDecl {
    pub name: Text,
    /// The number of its program in the deck, from 0.
    pub program: u32,
    /// The number of its recipe in the deck, from 0.
    pub recipe: u32,
    /// The values of the recipe's parameters, in their order.
    pub grid: Grid,
    /// How often each trial is measured.
    pub repeat: u32,
}

impl Model for SessionDecl {
    ghost use Rattle.std.specs.Prelude.{IsTrue};
    ghost use Rattle.std.specs.Coded.{codes};
    ghost use Rattle.ch_workload.specs.Tuned.{Tuned, tuned, is_tuned};

    ghost Value = { Tuned };

    ghost coded = { Prim.hlevel codes };

    ghost view = { λ s. tuned s.name s.program s.recipe s.grid.params s.repeat };

    ghost invariant = { λ s. IsTrue (is_tuned (tuned s.name s.program s.recipe s.grid.params s.repeat)) };
}

impl SessionDecl {
    /// Tells a caller what each session keeps by its type. It does nothing.
    pub fn known(&self)
        ensures { IsTrue (is_tuned self.now) }
    {
        let _ = self.name.len();
    }
}

/// A session, and the number of the first token behind it.
#[derive(Debug, Drop)]
pub struct ParsedSession {
    pub session: SessionDecl,
    pub next: u32,
}

fn are_repeats(times: u32) -> bool
    ensures { result ≡ are_repeats times }
{
    1 <= times && times <= MOST_REPEATS
}

fn is_same(text: &[u8], other: &[u8]) -> bool
    ensures { result ≡ bytes_eq text.now other.now }
{
    text == other
}

fn begins_repeat(bytes: &[u8], tokens: &[Token]) -> bool
    ensures { result ≡ begins_repeat bytes.now tokens.now }
{
    match seen(bytes, tokens) {
        Look::Name => is_same(text_at(bytes, tokens), b"repeat"),
        _ => false,
    }
}

/// How often each trial is measured, where `tokens` are those after `repeat`.
#[tactic(auto, unfolding(crate::specs::Sessions::times_at))]
fn times<'a>(bytes: &[u8], tokens: &'a [Token]) -> Result<(u32, &'a [Token]), SectionError>
    requires { length bytes.now < 2 ^ 32 }
    ensures exact { Gives (λ r. (r.0, r.1.now)) result (times_at bytes.now tokens.now) }
    ensures fits { IfOk result (λ r. IsTrue (are_repeats r.0)) }
{
    let (times, rest) = number(bytes, Code2::D2, tokens)?;
    if !are_repeats(times) {
        return Err(SectionError::refused(DeckCode::D13, place(bytes, tokens)));
    }
    let rest = sign(bytes, Code2::D2, Sign::Semicolon, rest)?;
    Ok((times, rest))
}

/// How often each trial is measured: once, where nothing is said.
#[tactic(auto, unfolding(crate::specs::Sessions::repeats_at))]
fn repeats<'a>(bytes: &[u8], tokens: &'a [Token]) -> Result<(u32, &'a [Token]), SectionError>
    requires { length bytes.now < 2 ^ 32 }
    ensures exact { Gives (λ r. (r.0, r.1.now)) result (repeats_at bytes.now tokens.now) }
    ensures fits { IfOk result (λ r. IsTrue (are_repeats r.0)) }
{
    if begins_repeat(bytes, tokens) {
        times(bytes, after(tokens))
    } else {
        Ok((1, tokens))
    }
}

/// The recipe of this number.
fn numbered(recipes: &[Recipe], k: u32) -> &Recipe
    requires { k < length recipes.now }
    ensures { result.now ≡ numbered recipes.now k }
{
    &recipes[k as usize]
}

/// The grid of these parameters, where its points are few.
#[tactic(auto, using(crate::proofs::Faults::few_points, crate::proofs::Faults::many_points))]
fn grid_of(params: List<Param>, at: u32) -> Result<Grid, SectionError>
    requires few { length params ≤ 6 }
    requires good { IsTrue (list_all is_good params) }
    ensures few { IfOk result (λ grid. (grid.params ≡ params) × (has_few_points params ≡ true)) }
    ensures many { IfErr result (λ e. (e ≡ Refused (Plain D5) at (pos 0))
        × (has_few_points params ≡ false)) }
{
    match Grid::of(params) {
        Ok(grid) => Ok(grid),
        Err(_) => Err(SectionError::refused(DeckCode::Plain(Code2::D5), at)),
    }
}

/// The closing brace of a session.
#[tactic(auto, unfolding(crate::specs::Sessions::closed_at), using(crate::proofs::Faults::few_params, crate::proofs::Faults::conditions_fit))]
fn closed<'a>(
    scope: &Scope<'_, '_>,
    recipe: &Recipe,
    params: List<Param>,
    tokens: &'a [Token],
) -> Result<(Grid, &'a [Token]), SectionError>
    requires few { length params ≤ length recipe.now.params }
    requires good { IsTrue (list_all is_good params) }
    ensures exact { Gives (λ r.
        (r.0.params, r.1.now)) result (closed_at scope.now.bytes.now recipe.now params tokens.now) }
    ensures fits { IfOk result (λ r. IsTrue (grid_fits r.0.params recipe.now)) }
{
    recipe.known();
    let at = place(scope.bytes, tokens);
    let rest = sign(scope.bytes, Code2::D2, Sign::RightBrace, tokens)?;
    if params.len() != recipe.params.len() {
        return Err(SectionError::refused(DeckCode::Plain(Code2::D4), at));
    }
    let grid = grid_of(params, at)?;
    if !has_admissible(scope.alloc, &grid, recipe.conditions.as_slice())? {
        return Err(SectionError::refused(DeckCode::D14, at));
    }
    Ok((grid, rest))
}

/// A session section.
#[tactic(auto, unfolding(crate::specs::Sessions::session_at), using(crate::proofs::Faults::few_params, crate::proofs::Faults::fits_declared))]
fn read_session<'a>(
    scope: &Scope<'_, '_>,
    tokens: &'a [Token],
) -> Result<(SessionDecl, &'a [Token]), SectionError>
    ensures exact { Gives (λ r.
        (r.0, r.1.now)) result (session_at scope.now.bytes.now scope.now.programs.now scope.now.recipes.now tokens.now) }
    ensures fits { IfOk result (λ r.
        IsTrue (session_fits (length scope.now.programs.now) scope.now.recipes.now r.0)) }
{
    let (heading, rest) = begun(scope, tokens)?;
    let recipe = numbered(scope.recipes, heading.recipe);
    recipe.known();
    let (params, rest) = params(scope.alloc, scope.bytes, recipe.params.as_slice(), rest)?;
    let (repeat, rest) = repeats(scope.bytes, rest)?;
    let (grid, rest) = closed(scope, recipe, params, rest)?;
    let session = SessionDecl {
        name: heading.name,
        program: heading.program,
        recipe: heading.recipe,
        grid,
        repeat,
    };
    Ok((session, rest))
}

/// A session section, which takes a token.
#[tactic(auto, using(crate::proofs::SessionsRead::session_name, crate::proofs::SessionsRead::session_taken, crate::proofs::SessionsRead::session_inside))]
fn section<'a>(
    scope: &Scope<'_, '_>,
    tokens: &'a [Token],
    from: u32,
) -> Result<(SessionDecl, &'a [Token]), SectionError>
    requires cut { IsCut scope.now.bytes.now 0 tokens.now }
    requires from { from ≤ length tokens.now }
    ensures exact { Gives (λ r.
        (r.0, r.1.now)) result (session_at scope.now.bytes.now scope.now.programs.now scope.now.recipes.now (drop from tokens.now)) }
    ensures fits { IfOk result (λ r.
        IsTrue (session_fits (length scope.now.programs.now) scope.now.recipes.now r.0)) }
    ensures name { IfOk result (λ r. IsTrue (is_name r.0.name)) }
    ensures taken { IfOk result (λ r. length r.1.now + 1 ≤ length tokens.now - from) }
    ensures place { IfErr result (λ e. IsWithin (length scope.now.bytes.now) e) }
{
    let (session, rest) = read_session(scope, tokens.split_at(from as usize).1)?;
    Ok((session, rest))
}

/// The session section whose first token, `session`, is token `from`, behind what was declared: the
/// session, or its first refusal.
///
/// The tokens are those of the bytes. Then the session's program and recipe are among those that
/// were declared, its grid has the recipe's parameters and a point that meets the conditions
/// between them, `next` is behind `from`, and the place of a refusal lies in the text or is its
/// end.
///
/// # Errors
///
/// D2 at a token that doesn't fit the grammar; D3 at the name of a program or a recipe that wasn't
/// declared; D4 at a parameter's name that isn't the recipe's next one, and at the closing brace
/// where one is missing; D5 at the name of a parameter whose range is none of a grid, once its step
/// was read, and at the closing brace where there are more than 65,536 points; D13 at a number of
/// repeats that isn't 1 to 9; D14 at the closing brace where no point meets the conditions.
#[tactic(auto, using(ch_nestparse::proofs::Ascii::cut_ascii, ch_nestparse::proofs::Cuts::few_tokens))]
pub fn parse_session(
    alloc: Global,
    declared: &Declared<'_>,
    tokens: &[Token],
    bytes: &[u8],
    from: u32,
) -> Result<ParsedSession, SectionError>
    requires short { length bytes.now < 2 ^ 32 }
    requires cut { IsCut bytes.now 0 tokens.now }
    requires from { from ≤ length tokens.now }
    ensures exact { Gives (λ p.
        p) result (section_at bytes.now declared.now.programs.now declared.now.recipes.now tokens.now from) }
    ensures fits { IfOk result (λ p.
        IsTrue (session_fits (length declared.now.programs.now) declared.now.recipes.now p.session)) }
    ensures name { IfOk result (λ p. IsTrue (is_name p.session.name)) }
    ensures place { IfErr result (λ e. IsWithin (length bytes.now) e) }
    ensures behind { IfOk result (λ p. from < p.next) }
    ensures within { IfOk result (λ p. p.next ≤ length tokens.now) }
{
    let scope = declared.scope(alloc, bytes);
    let (session, rest) = section(&scope, tokens, from)?;
    let next = (tokens.len() - rest.len()) as u32;
    Ok(ParsedSession { session, next })
}
