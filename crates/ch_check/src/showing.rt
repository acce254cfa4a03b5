//! The texts of `show`.
ghost use Rattle.std.specs.Prelude.{◌≡◌, ◌^◌, ◌++◌, IfOk, IsTrue, OnOk};
ghost use Rattle.std.specs.List.{All, list_any};
ghost use Rattle.std.specs.Option.{ForSome};
ghost use Rattle.ch_affine.specs.Affine.{IsAtMost};
ghost use Rattle.ch_check.specs.Added.{Adds};
ghost use Rattle.ch_check.specs.Checked.{check_status, is_refused};
ghost use Rattle.ch_check.specs.PieceText.{piece_lines};
ghost use Rattle.ch_check.specs.Sessions.{CanCheck, fits_all};
ghost use Rattle.ch_check.specs.Shown.{Shows, ShowsAll};
ghost use Rattle.ch_code.specs.CodeText.{unit_text};
ghost use Rattle.ch_subject.specs.Subjects.{machine_of};

use crate::answer::Answer;
use crate::checking::{either, status_of};
use crate::line::{put_legal, put_refused};
use crate::pieces::put_pieces;
use crate::place::values_of;
use ch_affine::{List, Text};
use ch_code::code_text;
use ch_deck::Deck;
use ch_judge::{Shown, show as shown};
use ch_nest::Machine;
use ch_subject::{machine_of, subject_of};
use ch_variant::ApplyError;
use ch_workload::SessionDecl;
use std::alloc::{AllocError, Global};

/// Adds the pieces of what a recipe makes, and its code.
fn put_made(alloc: Global, out: &mut Text, made: &Shown) -> Result<(), AllocError>
    ensures { OnOk result (out.new
        ≡ out.old ++ (piece_lines made.now.space.list ++ unit_text made.now.unit)) }
{
    put_pieces(alloc, out, &made.space)?;
    let code = code_text(alloc, &made.unit)?;
    out.append(code.as_bytes())
}

/// Adds what is shown of a session, and answers whether its recipe is refused.
fn put_session_on<'a>(
    alloc: Global,
    out: &mut Text,
    deck: &'a Deck,
    at: &Option<List<i64>>,
    machine: &'a Machine,
    session: &SessionDecl,
) -> Result<bool, AllocError>
    requires session { CanCheck deck.now at.now session.now }
    requires small { ForSome at.now (All (IsAtMost (2 ^ 20))) }
    ensures text { OnOk result (Adds
        (Shows machine.now deck.now at.now session.now) out.old out.new) }
    ensures refused { IfOk result (λ refused. refused ≡ is_refused deck.now at.now session.now) }
{
    let subject = subject_of(deck, session, machine);
    let values = values_of(alloc, at, session)?;
    let numbers = values.as_slice();
    match shown(alloc, &subject, numbers) {
        Ok(made) => {
            put_legal(out, &session.name, numbers, made.told)?;
            put_made(alloc, out, &made)?;
            Ok(false)
        }
        Err(ApplyError::Refused(refusal)) => {
            let nest = subject.nest;
            let arrays = nest.arrays.as_slice();
            put_refused(out, &session.name, numbers, arrays, &refusal)?;
            Ok(true)
        }
        Err(ApplyError::Memory) => Err(AllocError),
    }
}

/// Adds what is shown of the session that has this number in the deck, and answers whether its
/// recipe is refused.
fn put_session(
    alloc: Global,
    out: &mut Text,
    deck: &Deck,
    at: &Option<List<i64>>,
    number: u32,
    session: &SessionDecl,
) -> Result<bool, AllocError>
    requires session { CanCheck deck.now at.now session.now }
    requires small { ForSome at.now (All (IsAtMost (2 ^ 20))) }
    ensures text { OnOk result (Adds
        (Shows (machine_of deck.now.clients number) deck.now at.now session.now) out.old out.new) }
    ensures refused { IfOk result (λ refused. refused ≡ is_refused deck.now at.now session.now) }
{
    let machine = machine_of(deck.clients(), number);
    put_session_on(alloc, out, deck, at, &machine, session)
}

/// Adds what is shown of each session, and the end, and answers whether a recipe is refused.
fn put_sessions(
    alloc: Global,
    out: &mut Text,
    deck: &Deck,
    at: &Option<List<i64>>,
) -> Result<bool, AllocError>
    requires long { IsTrue (fits_all at.now deck.now) }
    requires small { ForSome at.now (All (IsAtMost (2 ^ 20))) }
    ensures text { OnOk result (Adds
        (ShowsAll deck.now at.now) out.old out.new) }
    ensures refused { IfOk result (λ refused. refused
        ≡ list_any (is_refused deck.now at.now) deck.now.sessions) }
{
    deck.known();
    let mut refused = false;
    for (k, session) in deck.sessions().iter().enumerate() {
        let here = put_session(alloc, out, deck, at, k as u32, session)?;
        refused = either(refused, here);
    }
    out.append(b"end\n")?;
    Ok(refused)
}

/// What `show` answers: the lines of `check`, and behind the line of a legal recipe a line for each
/// piece of the program that it makes, with its number, label, static places and count and its
/// first and last instance, and then code that executes the program. The status is that of `check`,
/// and so are the values and the machines.
pub fn show(alloc: Global, deck: &Deck, at: &Option<List<i64>>) -> Result<Answer, AllocError>
    requires long { IsTrue (fits_all at.now deck.now) }
    requires small { ForSome at.now (All (IsAtMost (2 ^ 20))) }
    ensures text { IfOk result (λ answer.
        ShowsAll deck.now at.now answer.text) }
    ensures status { IfOk result (λ answer.
        answer.status ≡ check_status deck.now at.now) }
{
    let mut text = Text::new(alloc);
    let refused = put_sessions(alloc, &mut text, deck, at)?;
    let status = status_of(refused);
    Ok(Answer { status, text })
}
