//! The lines of `check`.
ghost use Rattle.std.specs.Prelude.{◌≡◌, ◌^◌, ◌++◌, ◌||◌, IfOk, IsTrue, OnOk, if◌then◌else◌};
ghost use Rattle.std.specs.List.{All, list_any};
ghost use Rattle.std.specs.Option.{ForSome};
ghost use Rattle.ch_affine.specs.Affine.{IsAtMost};
ghost use Rattle.ch_check.specs.Checked.{check_line, check_status, check_text, is_refused, line_on};
ghost use Rattle.ch_check.specs.Sessions.{CanCheck, fits_all};
ghost use Rattle.ch_report.specs.Numbered.{numbered};

use crate::answer::Answer;
use crate::line::{put_legal, put_refused};
use crate::place::values_of;
use ch_affine::{List, Text};
use ch_deck::Deck;
use ch_judge::tell;
use ch_nest::Machine;
use ch_subject::{machine_of, subject_of};
use ch_variant::ApplyError;
use ch_workload::SessionDecl;
use std::alloc::{AllocError, Global};

/// The status where a recipe is refused, or none is.
pub(crate) fn status_of(refused: bool) -> u8
    ensures { result ≡ (if refused then 6 else 0) }
{
    if refused { 6 } else { 0 }
}

pub(crate) fn either(one: bool, other: bool) -> bool
    ensures { result ≡ (one || other) }
{
    one || other
}

/// Adds the line of a session, and answers whether its recipe is refused.
fn put_line_on<'a>(
    alloc: Global,
    out: &mut Text,
    deck: &'a Deck,
    at: &Option<List<i64>>,
    machine: &'a Machine,
    session: &SessionDecl,
) -> Result<bool, AllocError>
    requires session { CanCheck deck.now at.now session.now }
    requires small { ForSome at.now (All (IsAtMost (2 ^ 20))) }
    ensures text { OnOk result (out.new
        ≡ out.old ++ line_on machine.now deck.now at.now session.now) }
    ensures refused { IfOk result (λ refused. refused ≡ is_refused deck.now at.now session.now) }
{
    let subject = subject_of(deck, session, machine);
    let values = values_of(alloc, at, session)?;
    let numbers = values.as_slice();
    match tell(alloc, &subject, numbers) {
        Ok(told) => {
            put_legal(out, &session.name, numbers, told)?;
            Ok(false)
        }
        Err(ApplyError::Refused(refusal)) => {
            let nest = subject.nest;
            let arrays = nest.arrays.as_slice();
            put_refused(out, &session.name, numbers, arrays, &refusal)?;
            Ok(true)
        }
        Err(ApplyError::Memory) => Err(AllocError),
    }
}

/// Adds the line of the session that has this number in the deck, and answers whether its recipe is
/// refused.
fn put_line(
    alloc: Global,
    out: &mut Text,
    deck: &Deck,
    at: &Option<List<i64>>,
    number: u32,
    session: &SessionDecl,
) -> Result<bool, AllocError>
    requires session { CanCheck deck.now at.now session.now }
    requires small { ForSome at.now (All (IsAtMost (2 ^ 20))) }
    ensures text { OnOk result (out.new
        ≡ out.old ++ check_line deck.now at.now number session.now) }
    ensures refused { IfOk result (λ refused. refused ≡ is_refused deck.now at.now session.now) }
{
    let machine = machine_of(deck.clients(), number);
    put_line_on(alloc, out, deck, at, &machine, session)
}

/// Adds the line of each session, and answers whether a recipe is refused.
fn put_lines(
    alloc: Global,
    out: &mut Text,
    deck: &Deck,
    at: &Option<List<i64>>,
) -> Result<bool, AllocError>
    requires long { IsTrue (fits_all at.now deck.now) }
    requires small { ForSome at.now (All (IsAtMost (2 ^ 20))) }
    ensures text { OnOk result (out.new ≡ out.old
        ++ numbered (check_line deck.now at.now) 0 deck.now.sessions) }
    ensures refused { IfOk result (λ refused. refused
        ≡ list_any (is_refused deck.now at.now) deck.now.sessions) }
{
    deck.known();
    let mut refused = false;
    for (k, session) in deck.sessions().iter().enumerate() {
        let here = put_line(alloc, out, deck, at, k as u32, session)?;
        refused = either(refused, here);
    }
    Ok(refused)
}

/// What `check` answers: a line for each session, in the order of the deck, and `end`. The line
/// tells that the session's recipe is legal, with the pieces, the instances and the cost of the
/// program that it makes, or why the recipe is refused. The status is 6 where a recipe is refused,
/// else 0.
///
/// A recipe is judged at the given values, one for each parameter and each of magnitude at most
/// 2^20, or else at the values of the centre of the session's grid. Costs are counted on the
/// machine of the first client that calls the session, or else on `machine(1, 8, 16, 4)`.
pub fn check(alloc: Global, deck: &Deck, at: &Option<List<i64>>) -> Result<Answer, AllocError>
    requires long { IsTrue (fits_all at.now deck.now) }
    requires small { ForSome at.now (All (IsAtMost (2 ^ 20))) }
    ensures text { IfOk result (λ answer. answer.text ≡ check_text deck.now at.now) }
    ensures status { IfOk result (λ answer. answer.status ≡ check_status deck.now at.now) }
{
    let mut text = Text::new(alloc);
    let refused = put_lines(alloc, &mut text, deck, at)?;
    text.append(b"end\n")?;
    let status = status_of(refused);
    Ok(Answer { status, text })
}
