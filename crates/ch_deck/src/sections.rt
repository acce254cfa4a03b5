//! The sections of a deck, one after another.
ghost use Rattle.std.specs.Prelude.{◌≡◌, ◌<◌, ◌≤◌, ◌^◌, ◌+◌, drop, length, IfOk, IsTrue, OnOk};
ghost use Rattle.ch_deck.specs.Kept.{AreFound};
ghost use Rattle.ch_deck.specs.Sections.{behind_word, client_from, program_from};
ghost use Rattle.ch_deck.specs.Sections.{recipe_from, section_from, sections_of};
ghost use Rattle.ch_deck.specs.Sections.{session_from, sort_of, word_sort};
ghost use Rattle.ch_lex.specs.Cut.{IsCut};
ghost use Rattle.ch_workload.specs.Refusals.{Gives};

use crate::found::Found;
use crate::limits::{MOST_CLIENTS, MOST_PROGRAMS, MOST_RECIPES, MOST_SESSIONS};
use crate::titles::named;
use ch_lex::{Code2, Keyword, Token};
use ch_nestparse::{Look, parse_program, place, seen};
use ch_script::parse_recipe;
use ch_workload::{DeckCode, Declared, SectionError, parse_client, parse_session};
use std::alloc::Global;

/// The text of a deck, and its tokens.
#[derive(Drop)]
pub(crate) struct Source<'t> {
    pub alloc: Global,
    pub bytes: &'t [u8],
    pub tokens: &'t [Token],
    ghost short: { length bytes.now ≤ 2 ^ 20 },
    ghost few: { length tokens.now ≤ 2 ^ 20 },
}

/// Which section begins at a place.
#[derive(Clone, Copy, Debug)]
pub(crate) enum Sort {
    Program,
    Recipe,
    Session,
    Client,
    Other,
}

fn word_sort(word: Keyword) -> Sort
    ensures { result ≡ word_sort word }
{
    match word {
        Keyword::Program => Sort::Program,
        Keyword::Recipe => Sort::Recipe,
        Keyword::Session => Sort::Session,
        Keyword::Client => Sort::Client,
        _ => Sort::Other,
    }
}

fn sort_of(look: Look) -> Sort
    ensures { result ≡ sort_of look }
{
    match look {
        Look::Keyword(word) => word_sort(word),
        _ => Sort::Other,
    }
}

/// The tokens from the name of the next section on.
fn behind_word<'t>(source: &Source<'t>, found: &Found) -> &'t [Token]
    requires { found.now.next < length source.now.tokens.now }
    ensures { result.now ≡ behind_word source.now.tokens.now found.now }
{
    source.tokens.split_at(found.next as usize + 1).1
}

/// What sessions and clients may name.
#[tactic(auto, using(crate::proofs::Growing::few_programs, crate::proofs::Growing::few_recipes, crate::proofs::Growing::few_sessions))]
fn known(found: &Found) -> Declared<'_>
    requires { AreFound found.now }
    ensures programs { result.programs.now ≡ found.now.programs }
    ensures recipes { result.recipes.now ≡ found.now.recipes }
    ensures sessions { result.sessions.now ≡ found.now.sessions }
{
    Declared {
        programs: found.programs.as_slice(),
        recipes: found.recipes.as_slice(),
        sessions: found.sessions.as_slice(),
    }
}

/// One program more.
#[tactic(auto, unfolding(crate::specs::Sections::program_from))]
fn program(source: &Source<'_>, found: &mut Found) -> Result<(), SectionError>
    requires from { found.old.next < length source.now.tokens.now }
    requires cut { IsCut source.now.bytes.now 0 source.now.tokens.now }
    requires fine { AreFound found.old }
    ensures exact { Gives (λ _.
        found.new) result (program_from source.now.bytes.now source.now.tokens.now found.old) }
    ensures fine { OnOk result (AreFound found.new) }
    ensures behind { OnOk result (found.old.next < found.new.next) }
    ensures within { OnOk result (found.new.next ≤ length source.now.tokens.now) }
{
    let behind = behind_word(source, found);
    named(
        source.bytes,
        found.programs.as_slice(),
        MOST_PROGRAMS,
        behind,
    )?;
    let program = parse_program(source.alloc, source.tokens, source.bytes, found.next)?;
    found.next = program.next;
    found.programs.push(program)?;
    found.places.push(place(source.bytes, behind))?;
    Ok(())
}

/// One recipe more.
#[tactic(auto, unfolding(crate::specs::Sections::recipe_from))]
fn recipe(source: &Source<'_>, found: &mut Found) -> Result<(), SectionError>
    requires from { found.old.next < length source.now.tokens.now }
    requires cut { IsCut source.now.bytes.now 0 source.now.tokens.now }
    requires fine { AreFound found.old }
    ensures exact { Gives (λ _.
        found.new) result (recipe_from source.now.bytes.now source.now.tokens.now found.old) }
    ensures fine { OnOk result (AreFound found.new) }
    ensures behind { OnOk result (found.old.next < found.new.next) }
    ensures within { OnOk result (found.new.next ≤ length source.now.tokens.now) }
{
    let behind = behind_word(source, found);
    named(source.bytes, found.recipes.as_slice(), MOST_RECIPES, behind)?;
    let parsed = parse_recipe(source.alloc, source.tokens, source.bytes, found.next)?;
    found.next = parsed.next;
    found.recipes.push(parsed.recipe)?;
    Ok(())
}

/// One session more.
#[tactic(auto, unfolding(crate::specs::Sections::session_from))]
fn session(source: &Source<'_>, found: &mut Found) -> Result<(), SectionError>
    requires from { found.old.next < length source.now.tokens.now }
    requires cut { IsCut source.now.bytes.now 0 source.now.tokens.now }
    requires fine { AreFound found.old }
    ensures exact { Gives (λ _.
        found.new) result (session_from source.now.bytes.now source.now.tokens.now found.old) }
    ensures fine { OnOk result (AreFound found.new) }
    ensures behind { OnOk result (found.old.next < found.new.next) }
    ensures within { OnOk result (found.new.next ≤ length source.now.tokens.now) }
{
    let behind = behind_word(source, found);
    named(
        source.bytes,
        found.sessions.as_slice(),
        MOST_SESSIONS,
        behind,
    )?;
    let declared = known(found);
    let parsed = parse_session(
        source.alloc,
        &declared,
        source.tokens,
        source.bytes,
        found.next,
    )?;
    found.next = parsed.next;
    found.sessions.push(parsed.session)?;
    Ok(())
}

/// One client more.
#[tactic(auto, unfolding(crate::specs::Sections::client_from))]
fn client(source: &Source<'_>, found: &mut Found) -> Result<(), SectionError>
    requires from { found.old.next < length source.now.tokens.now }
    requires cut { IsCut source.now.bytes.now 0 source.now.tokens.now }
    requires fine { AreFound found.old }
    ensures exact { Gives (λ _.
        found.new) result (client_from source.now.bytes.now source.now.tokens.now found.old) }
    ensures fine { OnOk result (AreFound found.new) }
    ensures behind { OnOk result (found.old.next < found.new.next) }
    ensures within { OnOk result (found.new.next ≤ length source.now.tokens.now) }
{
    let behind = behind_word(source, found);
    named(source.bytes, found.clients.as_slice(), MOST_CLIENTS, behind)?;
    let declared = known(found);
    let parsed = parse_client(
        source.alloc,
        &declared,
        source.tokens,
        source.bytes,
        found.next,
    )?;
    found.next = parsed.next;
    found.clients.push(parsed.client)?;
    Ok(())
}

/// One section more, behind those that were found.
#[tactic(auto, unfolding(crate::specs::Sections::section_from))]
fn section(source: &Source<'_>, found: &mut Found) -> Result<(), SectionError>
    requires from { found.old.next < length source.now.tokens.now }
    requires cut { IsCut source.now.bytes.now 0 source.now.tokens.now }
    requires fine { AreFound found.old }
    ensures exact { Gives (λ _.
        found.new) result (section_from source.now.bytes.now source.now.tokens.now found.old) }
    ensures fine { OnOk result (AreFound found.new) }
    ensures behind { OnOk result (found.old.next < found.new.next) }
    ensures within { OnOk result (found.new.next ≤ length source.now.tokens.now) }
{
    let here = source.tokens.split_at(found.next as usize).1;
    match sort_of(seen(source.bytes, here)) {
        Sort::Program => program(source, found),
        Sort::Recipe => recipe(source, found),
        Sort::Session => session(source, found),
        Sort::Client => client(source, found),
        Sort::Other => Err(SectionError::refused(
            DeckCode::Plain(Code2::D1),
            place(source.bytes, here),
        )),
    }
}

/// All sections of a text.
#[tactic(auto, using(crate::proofs::Series::sections_more, crate::proofs::Series::sections_fail, crate::proofs::Series::sections_stop, crate::proofs::Series::nothing_kept))]
pub(crate) fn sections(source: &Source<'_>) -> Result<Found, SectionError>
    requires { IsCut source.now.bytes.now 0 source.now.tokens.now }
    ensures exact { Gives (λ f. f) result (sections_of source.now.bytes.now source.now.tokens.now) }
    ensures fine { IfOk result AreFound }
    ensures whole { IfOk result (λ f. f.next ≡ length source.now.tokens.now) }
{
    let mut found = Found::nothing(source.alloc);
    for _k in 0..source.tokens.len() {
        if found.next as usize >= source.tokens.len() {
            return Ok(found);
        }
        section(source, &mut found)?;
    }
    Ok(found)
}
