//! What the searches of a deck's sessions come to.
ghost use Rattle.std.specs.Prelude.{◌≡◌, IfOk, IsTrue, length};
ghost use Rattle.ch_report.specs.Sessions.{is_inside};
ghost use Rattle.ch_search.specs.Parts.{AreInside, ArePartsOf, IsPart};
ghost use Rattle.ch_workload.specs.Sessions.{session_fits};

use crate::tried::searched;
use ch_affine::List;
use ch_deck::Deck;
use ch_report::SessionPart;
use ch_subject::{machine_of, subject_of};
use ch_workload::SessionDecl;
use std::alloc::{AllocError, Global};

/// What the search of the session of number `k` comes to.
fn part_of<'a>(
    alloc: Global,
    deck: &'a Deck,
    k: u32,
    session: &'a SessionDecl,
) -> Result<SessionPart, AllocError>
    requires there { IsTrue
        (session_fits (length deck.now.programs) deck.now.recipes session.now) }
    ensures tuned { IfOk result (λ part. IsPart deck.now k session.now part) }
    ensures inside { IfOk result (λ part. IsTrue (is_inside session.now.params part)) }
{
    session.known();
    let machine = machine_of(deck.clients(), k);
    let subject = subject_of(deck, session, &machine);
    searched(alloc, &subject, &session.grid, session.repeat)
}

/// What the search of each session comes to, in the deck's order.
///
/// Each search is led by one thread to its end, as by `searched`; costs are counted on the machine
/// of the first client that calls the session.
pub fn parts_of(alloc: Global, deck: &Deck) -> Result<List<SessionPart>, AllocError>
    ensures tuned { IfOk result (λ parts. ArePartsOf deck.now parts) }
    ensures inside { IfOk result (λ parts. AreInside deck.now parts) }
{
    deck.known();
    let sessions = deck.sessions();
    let mut parts = List::new(alloc);
    for k in 0..sessions.len() {
        let part = part_of(alloc, deck, k as u32, &sessions[k])?;
        parts.push(part)?;
    }
    Ok(parts)
}
