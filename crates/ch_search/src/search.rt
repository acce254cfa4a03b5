//! The text of the searches of a deck's sessions.
ghost use Rattle.std.specs.Prelude.{◌≡◌, ◌++◌, IfOk, IsTrue, OnOk, length};
ghost use Rattle.ch_report.specs.Sessions.{is_inside};
ghost use Rattle.ch_search.specs.Parts.{AreInside};
ghost use Rattle.ch_search.specs.Searched.{IsSearchText, lines_of, session_part};
ghost use Rattle.ch_workload.specs.Sessions.{session_fits};

use crate::parts::parts_of;
use ch_affine::Text;
use ch_deck::Deck;
use ch_report::{SessionPart, Tuning, put_session};
use ch_subject::{program_of, recipe_of};
use ch_workload::SessionDecl;
use std::alloc::{AllocError, Global};

/// Adds the lines of a session, with what its search came to.
fn put_part<'a>(
    alloc: Global,
    out: &mut Text,
    deck: &'a Deck,
    session: &'a SessionDecl,
    part: &SessionPart,
) -> Result<(), AllocError>
    requires there { IsTrue
        (session_fits (length deck.now.programs) deck.now.recipes session.now) }
    requires inside { IsTrue (is_inside session.now.params part.now) }
    ensures { OnOk result (out.new ≡ out.old ++ session_part deck.now session.now part.now) }
{
    let program = program_of(deck, session);
    let conditions = recipe_of(deck, session).requirements(alloc)?;
    let tuning = Tuning {
        name: &session.name,
        grid: &session.grid,
        conditions: conditions.as_slice(),
        arrays: program.nest.arrays.as_slice(),
    };
    put_session(alloc, out, &tuning, part)
}

/// Adds the lines of all sessions, each with what its search came to.
fn put_parts(
    alloc: Global,
    out: &mut Text,
    deck: &Deck,
    parts: &[SessionPart],
) -> Result<(), AllocError>
    requires { AreInside deck.now parts.now }
    ensures { OnOk result (out.new
        ≡ out.old ++ lines_of (session_part deck.now) deck.now.sessions parts.now) }
{
    deck.known();
    let sessions = deck.sessions();
    for k in 0..sessions.len() {
        put_part(alloc, out, deck, &sessions[k], &parts[k])?;
    }
    Ok(())
}

/// The text of `search`: the lines of each session, in the deck's order, with what its search came
/// to, and `end`.
pub fn answer(alloc: Global, deck: &Deck) -> Result<Text, AllocError>
    ensures { IfOk result (λ text. IsSearchText deck.now text) }
{
    let parts = parts_of(alloc, deck)?;
    let mut text = Text::new(alloc);
    put_parts(alloc, &mut text, deck, parts.as_slice())?;
    text.append(b"end\n")?;
    Ok(text)
}
