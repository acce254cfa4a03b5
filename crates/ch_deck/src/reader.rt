ghost use Rattle.std.specs.Prelude.{◌≡◌, ◌≤◌, ◌<◌, ◌^◌, Ok, length, IfOk};
ghost use Rattle.ch_deck.specs.Decks.{deck_of, lexed, read_of, spotted};
ghost use Rattle.ch_deck.specs.Gives.{GivesDeck};
ghost use Rattle.ch_deck.specs.Kept.{AreFound};
ghost use Rattle.ch_lex.specs.Cut.{IsCut};
ghost use Rattle.ch_lex.specs.Tokens.{tokens_of};
ghost use Rattle.ch_nestparse.specs.Gives as parsed;
ghost use Rattle.ch_workload.specs.Refusals.{Gives};

use crate::deck::{first_unfit, placed, programs_of};
use crate::found::Found;
use crate::limits::MOST_BYTES;
use crate::program::Deck;
use crate::refusal::{DeckError, Refused};
use crate::sections::{Source, sections};
use ch_affine::{List, Text};
use ch_lex::{Code2, ParseError, Token, tokens};
use ch_workload::{DeckCode, SectionError};
use std::alloc::Global;

/// The tokens of a text.
fn lexed(alloc: Global, bytes: &[u8]) -> Result<List<Token>, ParseError>
    requires { length bytes.now < 2 ^ 31 }
    ensures exact { parsed.Gives (λ ts. ts) result (lexed (tokens_of bytes.now)) }
    ensures cut { IfOk result (λ ts. IsCut bytes.now 0 ts) }
{
    let tokens = tokens(alloc, bytes)?;
    Ok(tokens)
}

/// The sections of a text.
#[tactic(auto, using(ch_nestparse::proofs::Cuts::few_tokens))]
fn read_of(alloc: Global, bytes: &[u8]) -> Result<Found, SectionError>
    requires { length bytes.now ≤ 2 ^ 20 }
    ensures exact { Gives (λ found. found) result (read_of bytes.now) }
    ensures fine { IfOk result AreFound }
{
    let tokens = lexed(alloc, bytes)?;
    let source = Source {
        alloc,
        bytes,
        tokens: tokens.as_slice(),
    };
    sections(&source)
}

fn judged(alloc: Global, bytes: &[u8], found: Found) -> Result<Deck, DeckError>
    requires short { length bytes.now < 2 ^ 31 }
    requires fine { AreFound found }
    ensures { GivesDeck result (spotted bytes.now (Ok found)) }
{
    let Found {
        programs,
        places,
        recipes,
        sessions,
        clients,
        ..
    } = found;
    match first_unfit(alloc, bytes, programs.as_slice(), places.as_slice())? {
        Some(refusal) => Err(DeckError::Refused(refusal)),
        None => {
            let programs = programs_of(alloc, programs)?;
            Ok(Deck::of(programs, recipes, sessions, clients))
        }
    }
}

/// The deck that these bytes are, or its first refusal: too many bytes (D10), then a byte that
/// begins no token (L1 to L3), then the first token that doesn't fit (D1 where a section begins, P1
/// to P7, A1 and D8 in a program, R1 to R4 in a recipe, D2 to D5, D7, D9, D13 and D14 in a session
/// or a client, D3 and D6 at the name of a section), then the first program that can't be run (S1,
/// S2).
#[tactic(auto, unfolding(crate::specs::Decks::deck_of))]
pub fn read_deck(alloc: Global, bytes: &[u8]) -> Result<Deck, DeckError>
    ensures { GivesDeck result (deck_of bytes.now) }
{
    if bytes.len() > MOST_BYTES {
        return Err(DeckError::Refused(Refused {
            code: DeckCode::Plain(Code2::D10),
            spot: None,
            detail: Text::new(alloc),
        }));
    }
    match read_of(alloc, bytes) {
        Ok(found) => judged(alloc, bytes, found),
        Err(SectionError::Memory) => Err(DeckError::Memory),
        Err(SectionError::Refused { code, at, value }) => {
            let refusal = placed(alloc, bytes, code, at, value)?;
            Err(DeckError::Refused(refusal))
        }
    }
}
