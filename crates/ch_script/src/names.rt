//! The names of parameters and of levels.
ghost use Rattle.std.specs.Prelude.{◌≡◌, ◌<◌, ◌≤◌, ◌^◌, length, IfOk, IfSome, IsTrue, [], ◌∷◌};
ghost use Rattle.std.specs.List.{list_all};
ghost use Rattle.std.specs.Char.{is_ascii};
ghost use Rattle.ch_nestparse.specs.Gives.{Gives};
ghost use Rattle.ch_script.specs.Names.{find_text, is_free, level_name, level_of};
ghost use Rattle.ch_script.specs.Names.{more_param_at, next_is_comma, param_at, params_at};

use crate::limits::MOST_PARAMS;
use ch_affine::{List, Text};
use ch_lex::{Code2, ParseError, Sign, Token};
use ch_nestparse::{Readings, after, name, next_is, place, refused, repeat, sign};
use std::alloc::Global;

/// The text that is read, which is ASCII.
#[derive(Drop)]
pub struct Source<'t> {
    pub alloc: Global,
    pub bytes: &'t [u8],
    ghost short: { length bytes.now < 2 ^ 32 },
    ghost ascii: { IsTrue (list_all is_ascii bytes.now) },
}

/// The text of a recipe, and the names of its parameters.
#[derive(Drop)]
pub struct Scope<'t, 's> {
    pub alloc: Global,
    pub bytes: &'t [u8],
    pub params: &'s [Text],
    ghost short: { length bytes.now < 2 ^ 32 },
    ghost ascii: { IsTrue (list_all is_ascii bytes.now) },
    ghost few: { length params.now ≤ 6 },
}

/// The place of a text in a list of texts.
fn place_of(text: &[u8], texts: &[Text]) -> Option<usize>
    ensures exact { result ≡ find_text text.now texts.now }
    ensures inside { IfSome result (λ k. k < length texts.now) }
{
    texts.iter().position(|other| other.as_bytes() == text)
}

/// The name of a level from 1 to 10.
fn level_name(level: u32) -> &'static [u8]
    ensures { result.now ≡ level_name level }
{
    match level {
        1 => b"L1",
        2 => b"L2",
        3 => b"L3",
        4 => b"L4",
        5 => b"L5",
        6 => b"L6",
        7 => b"L7",
        8 => b"L8",
        9 => b"L9",
        _ => b"L10",
    }
}

/// The level of this name.
#[tactic(auto, unfolding(crate::specs::Names::level_of))]
pub(crate) fn level_of(text: &[u8]) -> Option<u32>
    ensures { result ≡ level_of text.now }
{
    let levels = [1u32, 2, 3, 4, 5, 6, 7, 8, 9, 10];
    levels.iter().copied().find(|l| level_name(*l) == text)
}

impl Scope<'_, '_> {
    /// The number of the parameter of this name.
    pub fn param(&self, text: &[u8]) -> Option<u32>
        ensures { result ≡ find_text text.now self.now.params.now }
    {
        match place_of(text, self.params) {
            Some(k) => Some(k as u32),
            None => None,
        }
    }
}

/// Whether neither a parameter nor a level has this name.
fn is_free(text: &[u8], params: &[Text]) -> bool
    ensures { result ≡ is_free text.now params.now }
{
    place_of(text, params).is_none() && level_of(text).is_none()
}

/// One parameter more.
#[tactic(auto, unfolding(crate::specs::Names::param_at))]
fn param<'a>(
    source: &Source<'_>,
    params: List<Text>,
    tokens: &'a [Token],
) -> Result<(List<Text>, &'a [Token]), ParseError>
    ensures exact { Gives (λ r.
        (r.0, r.1.now)) result (param_at source.now.bytes.now params tokens.now) }
    ensures few { IfOk result (λ r. length r.0 ≤ 6) }
{
    let mut params = params;
    let at = place(source.bytes, tokens);
    let (text, rest) = name(source.bytes, Code2::R1, tokens)?;
    if !is_free(text, params.as_slice()) {
        return Err(refused(Code2::R3, at));
    }
    if params.len() >= MOST_PARAMS {
        return Err(refused(Code2::R4, at));
    }
    params.push(Text::of(source.alloc, text)?)?;
    Ok((params, rest))
}

/// The parameters behind the first.
#[derive(Drop)]
struct MoreParams<'r, 't> {
    source: &'r Source<'t>,
}

impl Readings for MoreParams<'_, '_> {
    type State = List<Text>;

    ghost goes = { λ s. next_is_comma s.source.now.bytes.now };

    ghost one = { λ s. more_param_at s.source.now.bytes.now };

    ghost keeps = { λ s params. length params ≤ 6 };

    fn goes(&self, tokens: &[Token]) -> bool {
        next_is(self.source.bytes, Sign::Comma, tokens)
    }

    #[tactic(auto, unfolding(crate::specs::Names::more_param_at))]
    fn one<'a>(
        &self,
        params: List<Text>,
        tokens: &'a [Token],
    ) -> Result<(List<Text>, &'a [Token]), ParseError> {
        let rest = sign(self.source.bytes, Code2::R1, Sign::Comma, tokens)?;
        param(self.source, params, rest)
    }
}

/// The parameters, behind their `(` and up to their `)`.
#[tactic(auto, unfolding(crate::specs::Names::params_at))]
pub(crate) fn params<'a>(
    source: &Source<'_>,
    tokens: &'a [Token],
) -> Result<(List<Text>, &'a [Token]), ParseError>
    ensures exact { Gives (λ r. (r.0, r.1.now)) result (params_at source.now.bytes.now tokens.now) }
    ensures few { IfOk result (λ r. length r.0 ≤ 6) }
{
    let none = List::new(source.alloc);
    if next_is(source.bytes, Sign::RightParen, tokens) {
        return Ok((none, after(tokens)));
    }
    let (first, rest) = param(source, none, tokens)?;
    let (all, rest) = repeat(&MoreParams { source }, MOST_PARAMS, first, rest)?;
    let rest = sign(source.bytes, Code2::R1, Sign::RightParen, rest)?;
    Ok((all, rest))
}
