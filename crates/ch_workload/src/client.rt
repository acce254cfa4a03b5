//! Clients, and the reader of their sections.
ghost use Rattle.std.specs.Prelude.{◌≡◌, ◌<◌, ◌≤◌, ◌^◌, ◌+◌, ◌-◌, drop};
ghost use Rattle.std.specs.Prelude.{length, map, IfErr, IfOk, IsTrue};
ghost use Rattle.ch_lex.specs.Cut.{IsCut};
ghost use Rattle.ch_nestparse.specs.Gives.{Gives};
ghost use Rattle.ch_nestparse.specs.Inside.{IsWithin};
ghost use Rattle.ch_nestparse.specs.Spelling.{is_name};
ghost use Rattle.ch_workload.specs.Clients.{array_counts, client_at, client_fits};
ghost use Rattle.ch_workload.specs.Clients.{patience_at, patience_if, section_at};

use crate::calls::{CallDecl, calls};
use crate::fills::{ClientFill, fills};
use crate::machine::machine;
use crate::names::{Declared, Scope};
use ch_affine::{List, Text};
use ch_lex::{Code2, Keyword, ParseError, Sign, Token};
use ch_nest::Machine;
use ch_nestparse::{Look, after, keyword, name, place, refused, seen, sign};
use std::alloc::Global;

/// A client: what it calls, and how its programs start.
#[derive(Debug, Drop)]
pub struct Script {
    pub name: Text,
    /// Whether it builds a trial itself where it is given none, rather than go on with what there
    /// is.
    pub patient: bool,
    /// The machine on which its costs are counted.
    pub machine: Machine,
    pub fills: List<ClientFill>,
    /// Its calls, line by line.
    pub calls: List<CallDecl>,
}

/// A client, and the number of the first token behind it.
#[derive(Debug, Drop)]
pub struct ParsedClient {
    pub client: Script,
    pub next: u32,
}

/// Whether the client is patient, and the tokens after the word that says so, which are `tokens`.
fn patience_if(look: Look, at: u32, tokens: &[Token]) -> Result<(bool, &[Token]), ParseError>
    ensures { Gives (λ r. (r.0, r.1.now)) result (patience_if look at tokens.now) }
{
    match look {
        Look::Keyword(Keyword::Eager) => Ok((false, tokens)),
        Look::Keyword(Keyword::Patient) => Ok((true, tokens)),
        _ => Err(refused(Code2::D2, at)),
    }
}

/// Whether the client is patient.
#[tactic(auto, unfolding(crate::specs::Clients::patience_at))]
fn patience<'a>(bytes: &[u8], tokens: &'a [Token]) -> Result<(bool, &'a [Token]), ParseError>
    requires { length bytes.now < 2 ^ 32 }
    ensures { Gives (λ r. (r.0, r.1.now)) result (patience_at bytes.now tokens.now) }
{
    patience_if(seen(bytes, tokens), place(bytes, tokens), after(tokens))
}

/// A client section.
#[tactic(auto, unfolding(crate::specs::Clients::client_at))]
fn read_client<'a>(
    scope: &Scope<'_, '_>,
    tokens: &'a [Token],
) -> Result<(Script, &'a [Token]), ParseError>
    ensures { Gives (λ r.
        (r.0, r.1.now)) result (client_at scope.now.bytes.now scope.now.programs.now scope.now.sessions.now tokens.now) }
{
    let bytes = scope.bytes;
    let rest = keyword(bytes, Code2::D2, Keyword::Client, tokens)?;
    let (text, rest) = name(bytes, Code2::D2, rest)?;
    let (patient, rest) = patience(bytes, rest)?;
    let (machine, rest) = match machine(bytes, rest) {
        Ok(found) => found,
        Err(error) => return Err(error),
    };
    let rest = sign(bytes, Code2::D2, Sign::LeftBrace, rest)?;
    let (fills, rest) = fills(scope, rest)?;
    let (called, rest) = calls(scope, rest)?;
    let rest = sign(bytes, Code2::D2, Sign::RightBrace, rest)?;
    let name = Text::of(scope.alloc, text)?;
    let client = Script {
        name,
        patient,
        machine,
        fills,
        calls: called.calls,
    };
    Ok((client, rest))
}

/// A client section, which takes a token.
#[tactic(auto, using(crate::proofs::ClientsRead::client_name, crate::proofs::ClientsRead::client_fit, crate::proofs::ClientsRead::client_taken, crate::proofs::ClientsRead::client_inside))]
fn section<'a>(
    scope: &Scope<'_, '_>,
    tokens: &'a [Token],
    from: u32,
) -> Result<(Script, &'a [Token]), ParseError>
    requires cut { IsCut scope.now.bytes.now 0 tokens.now }
    requires from { from ≤ length tokens.now }
    ensures exact { Gives (λ r.
        (r.0, r.1.now)) result (client_at scope.now.bytes.now scope.now.programs.now scope.now.sessions.now (drop from tokens.now)) }
    ensures fits { IfOk result (λ r.
        IsTrue (client_fits (array_counts scope.now.programs.now) (length scope.now.sessions.now) r.0)) }
    ensures name { IfOk result (λ r. IsTrue (is_name r.0.name)) }
    ensures taken { IfOk result (λ r. length r.1.now + 1 ≤ length tokens.now - from) }
    ensures place { IfErr result (λ e. IsWithin (length scope.now.bytes.now) e) }
{
    let (client, rest) = read_client(scope, tokens.split_at(from as usize).1)?;
    Ok((client, rest))
}

/// The client section whose first token, `client`, is token `from`, behind what was declared: the
/// client, or its first refusal.
///
/// The tokens are those of the bytes. Then what the client fills and calls was declared, it fills
/// no array twice and makes 1 to 10,000 calls, `next` is behind `from`, and the place of a refusal
/// lies in the text or is its end.
///
/// # Errors
///
/// D2 at a token that doesn't fit the grammar; D3 at the name of a program, an array or a session
/// that wasn't declared, and at that of an array that the client fills twice; D7 at a count of
/// calls that is 0, or with which there are more than 10,000; D9 at a number of the machine that is
/// past its limit.
#[tactic(auto, using(ch_nestparse::proofs::Ascii::cut_ascii, ch_nestparse::proofs::Cuts::few_tokens))]
pub fn parse_client(
    alloc: Global,
    declared: &Declared<'_>,
    tokens: &[Token],
    bytes: &[u8],
    from: u32,
) -> Result<ParsedClient, ParseError>
    requires short { length bytes.now < 2 ^ 32 }
    requires cut { IsCut bytes.now 0 tokens.now }
    requires from { from ≤ length tokens.now }
    ensures exact { Gives (λ p.
        p) result (section_at bytes.now declared.now.programs.now declared.now.sessions.now tokens.now from) }
    ensures fits { IfOk result (λ p.
        IsTrue (client_fits (array_counts declared.now.programs.now) (length declared.now.sessions.now) p.client)) }
    ensures name { IfOk result (λ p. IsTrue (is_name p.client.name)) }
    ensures place { IfErr result (λ e. IsWithin (length bytes.now) e) }
    ensures behind { IfOk result (λ p. from < p.next) }
    ensures within { IfOk result (λ p. p.next ≤ length tokens.now) }
{
    let scope = declared.scope(alloc, bytes);
    let (client, rest) = section(&scope, tokens, from)?;
    let next = (tokens.len() - rest.len()) as u32;
    Ok(ParsedClient { client, next })
}
