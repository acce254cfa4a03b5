//! What was declared, and the names by which sessions and clients speak of it.
ghost use Rattle.std.specs.Prelude.{◌≡◌, ℕ, ◌<◌, ◌≤◌, ◌^◌, length, IfOk, IfSome, IsTrue};
ghost use Rattle.std.specs.List.{list_all};
ghost use Rattle.std.specs.Char.{is_ascii};
ghost use Rattle.ch_nestparse.specs.Gives.{Gives};
ghost use Rattle.ch_workload.specs.Names.{array_at, find_array, find_program};
ghost use Rattle.ch_workload.specs.Names.{find_recipe, find_session, found_at};
ghost use Rattle.ch_workload.specs.Names.{program_at, recipe_at, session_at};

use crate::session::SessionDecl;
use ch_lex::{Code2, ParseError, Token};
use ch_nest::ArrayDecl;
use ch_nestparse::{ParsedProgram, name, place, refused};
use ch_script::Recipe;
use std::alloc::Global;

/// What a session or a client may name: the programs, recipes and sessions that stand before it in
/// the deck, which are at most 16, 16 and 8.
#[derive(Drop)]
pub struct Declared<'d> {
    pub programs: &'d [ParsedProgram],
    pub recipes: &'d [Recipe],
    pub sessions: &'d [SessionDecl],
    ghost few_programs: { length programs.now ≤ 16 },
    ghost few_recipes: { length recipes.now ≤ 16 },
    ghost few_sessions: { length sessions.now ≤ 8 },
}

/// The text that is read, which is ASCII, and what was declared before the section.
#[derive(Drop)]
pub(crate) struct Scope<'t, 'd> {
    pub alloc: Global,
    pub bytes: &'t [u8],
    pub programs: &'d [ParsedProgram],
    pub recipes: &'d [Recipe],
    pub sessions: &'d [SessionDecl],
    ghost short: { length bytes.now < 2 ^ 32 },
    ghost ascii: { IsTrue (list_all is_ascii bytes.now) },
    ghost few_programs: { length programs.now ≤ 16 },
    ghost few_recipes: { length recipes.now ≤ 16 },
    ghost few_sessions: { length sessions.now ≤ 8 },
}

impl<'d> Declared<'d> {
    ghost use Rattle.std.specs.Prelude.{◌≡◌, ◌<◌, ◌^◌, length, IsTrue};
    ghost use Rattle.std.specs.List.{list_all};
    ghost use Rattle.std.specs.Char.{is_ascii};

    /// The text of a section behind what was declared.
    pub(crate) fn scope<'t>(&self, alloc: Global, bytes: &'t [u8]) -> Scope<'t, 'd>
        requires short { length bytes.now < 2 ^ 32 }
        requires ascii { IsTrue (list_all is_ascii bytes.now) }
        ensures bytes { result.bytes.now ≡ bytes.now }
        ensures programs { result.programs.now ≡ self.now.programs.now }
        ensures recipes { result.recipes.now ≡ self.now.recipes.now }
        ensures sessions { result.sessions.now ≡ self.now.sessions.now }
    {
        Scope {
            alloc,
            bytes,
            programs: self.programs,
            recipes: self.recipes,
            sessions: self.sessions,
        }
    }
}

fn find_program(text: &[u8], programs: &[ParsedProgram]) -> Option<usize>
    ensures exact { result ≡ find_program text.now programs.now }
    ensures inside { IfSome result (λ k. k < length programs.now) }
{
    programs.iter().position(|p| p.name.as_bytes() == text)
}

fn find_recipe(text: &[u8], recipes: &[Recipe]) -> Option<usize>
    ensures exact { result ≡ find_recipe text.now recipes.now }
    ensures inside { IfSome result (λ k. k < length recipes.now) }
{
    recipes.iter().position(|r| r.name.as_bytes() == text)
}

fn find_session(text: &[u8], sessions: &[SessionDecl]) -> Option<usize>
    ensures exact { result ≡ find_session text.now sessions.now }
    ensures inside { IfSome result (λ k. k < length sessions.now) }
{
    sessions.iter().position(|s| s.name.as_bytes() == text)
}

fn find_array(text: &[u8], arrays: &[ArrayDecl]) -> Option<usize>
    ensures exact { result ≡ find_array text.now arrays.now }
    ensures inside { IfSome result (λ k. k < length arrays.now) }
{
    arrays.iter().position(|a| a.name.as_bytes() == text)
}

/// What was found of the name at byte `at`, and the tokens after it, which are `tokens`.
fn found_at(at: u32, found: Option<usize>, tokens: &[Token]) -> Result<(u32, &[Token]), ParseError>
    requires { IfSome found (λ k. k < 2 ^ 32) }
    ensures exact { Gives (λ r. (r.0, r.1.now)) result (found_at at found tokens.now) }
    ensures inside { (n : ℕ) → IfSome found (λ k. k < n) → IfOk result (λ r. r.0 < n) }
{
    match found {
        Some(k) => Ok((k as u32, tokens)),
        None => Err(refused(Code2::D3, at)),
    }
}

/// The number of the program that the next token names.
#[tactic(auto, unfolding(crate::specs::Names::program_at))]
pub(crate) fn program<'a>(
    scope: &Scope<'_, '_>,
    tokens: &'a [Token],
) -> Result<(u32, &'a [Token]), ParseError>
    ensures exact { Gives (λ r.
        (r.0, r.1.now)) result (program_at scope.now.bytes.now scope.now.programs.now tokens.now) }
    ensures inside { IfOk result (λ r. r.0 < length scope.now.programs.now) }
{
    let at = place(scope.bytes, tokens);
    let (text, rest) = name(scope.bytes, Code2::D2, tokens)?;
    found_at(at, find_program(text, scope.programs), rest)
}

/// The number of the recipe that the next token names.
#[tactic(auto, unfolding(crate::specs::Names::recipe_at))]
pub(crate) fn recipe<'a>(
    scope: &Scope<'_, '_>,
    tokens: &'a [Token],
) -> Result<(u32, &'a [Token]), ParseError>
    ensures exact { Gives (λ r.
        (r.0, r.1.now)) result (recipe_at scope.now.bytes.now scope.now.recipes.now tokens.now) }
    ensures inside { IfOk result (λ r. r.0 < length scope.now.recipes.now) }
{
    let at = place(scope.bytes, tokens);
    let (text, rest) = name(scope.bytes, Code2::D2, tokens)?;
    found_at(at, find_recipe(text, scope.recipes), rest)
}

/// The number of the session that the next token names.
#[tactic(auto, unfolding(crate::specs::Names::session_at))]
pub(crate) fn session<'a>(
    scope: &Scope<'_, '_>,
    tokens: &'a [Token],
) -> Result<(u32, &'a [Token]), ParseError>
    ensures exact { Gives (λ r.
        (r.0, r.1.now)) result (session_at scope.now.bytes.now scope.now.sessions.now tokens.now) }
    ensures inside { IfOk result (λ r. r.0 < length scope.now.sessions.now) }
{
    let at = place(scope.bytes, tokens);
    let (text, rest) = name(scope.bytes, Code2::D2, tokens)?;
    found_at(at, find_session(text, scope.sessions), rest)
}

/// The number of the array that the next token names.
#[tactic(auto, unfolding(crate::specs::Names::array_at))]
pub(crate) fn array<'a>(
    bytes: &[u8],
    arrays: &[ArrayDecl],
    tokens: &'a [Token],
) -> Result<(u32, &'a [Token]), ParseError>
    requires short { length bytes.now < 2 ^ 32 }
    requires few { length arrays.now < 2 ^ 32 }
    ensures exact { Gives (λ r. (r.0, r.1.now)) result (array_at bytes.now arrays.now tokens.now) }
    ensures inside { IfOk result (λ r. r.0 < length arrays.now) }
{
    let at = place(bytes, tokens);
    let (text, rest) = name(bytes, Code2::D2, tokens)?;
    found_at(at, find_array(text, arrays), rest)
}
