//! The names of sections.
ghost use Rattle.std.specs.Prelude.{◌≡◌, ◌<◌, ◌^◌, ℕ, List, length, map};
ghost use Rattle.ch_deck.specs.Programs.{has_name};
ghost use Rattle.ch_deck.specs.Sections.{looks_named, named_at};
ghost use Rattle.ch_workload.specs.Refusals.{Gives};

use ch_lex::{Code2, Token};
use ch_nestparse::{Look, ParsedProgram, place, seen, text_at};
use ch_script::Recipe;
use ch_workload::{DeckCode, Script, SectionError, SessionDecl};

/// What a section declares: it has a name.
pub(crate) trait Titled {
    ghost title: { Self → List ℕ };

    fn title(&self) -> &[u8]
        ensures { result.now ≡ title self.now };
}

impl Titled for ParsedProgram {
    ghost title = { λ p. p.name };

    fn title(&self) -> &[u8] {
        self.name.as_bytes()
    }
}

impl Titled for Recipe {
    ghost title = { λ r. r.name };

    fn title(&self) -> &[u8] {
        self.name.as_bytes()
    }
}

impl Titled for SessionDecl {
    ghost title = { λ s. s.name };

    fn title(&self) -> &[u8] {
        self.name.as_bytes()
    }
}

impl Titled for Script {
    ghost title = { λ c. c.name };

    fn title(&self) -> &[u8] {
        self.name.as_bytes()
    }
}

fn looks_named(look: Look) -> bool
    ensures { result ≡ looks_named look }
{
    matches!(look, Look::Name)
}

/// Whether one of these has the name.
fn has_name<T: Titled>(name: &[u8], things: &[T]) -> bool
    ensures { result ≡ has_name name.now (map T.title things.now) }
{
    for thing in things {
        if name == thing.title() {
            return true;
        }
    }
    false
}

/// Judges the name of a section, whose first token this is, behind those of its sort, of which
/// there may be so many.
#[tactic(auto, unfolding(crate::specs::Sections::named_at))]
pub(crate) fn named<T: Titled>(
    bytes: &[u8],
    things: &[T],
    most: usize,
    tokens: &[Token],
) -> Result<(), SectionError>
    requires { length bytes.now < 2 ^ 32 }
    ensures { Gives (λ r. r) result (named_at bytes.now (map T.title things.now) most tokens.now) }
{
    if looks_named(seen(bytes, tokens)) {
        let at = place(bytes, tokens);
        if has_name(text_at(bytes, tokens), things) {
            return Err(SectionError::refused(DeckCode::Plain(Code2::D3), at));
        }
        if things.len() >= most {
            return Err(SectionError::refused(DeckCode::Plain(Code2::D6), at));
        }
    }
    Ok(())
}
