//! What is answered to an input.
ghost use Rattle.std.specs.Prelude.{◌≡◌, IfOk, None, Ok, Some, true};
ghost use Rattle.ch_deck.specs.Decks.{deck_of};
ghost use Rattle.ch_run.specs.Answers.{IsAnswer, IsRefused, IsTold, refused_whole, unfit, unfit_values};
ghost use Rattle.ch_run.specs.Conduct.{IsWhole};
ghost use Rattle.ch_run.specs.Requests.{answered};
ghost use Rattle.ch_words.specs.Requests.{HasSmallValues, reads_input};

use crate::eval::eval_text;
use ch_affine::{List, Text};
use ch_check::{Answer, check, fits_all, show};
use ch_deck::{Deck, DeckError, Refused, read_deck};
use ch_lex::Code2;
use ch_search::answer as search;
use ch_words::Request;
use ch_workload::DeckCode;
use std::alloc::{AllocError, Global};

fn unfit_values(at: &Option<List<i64>>, deck: &Deck) -> Option<Code2>
    ensures { result ≡ unfit_values at.now deck.now }
{
    if fits_all(at, deck) {
        None
    } else {
        Some(Code2::D11)
    }
}

/// Why an accepted deck is refused by what is asked of it.
fn unfit(request: &Request, deck: &Deck) -> Option<Code2>
    ensures { result ≡ unfit request.now deck.now }
{
    match request {
        Request::Check { at } | Request::Show { at } => unfit_values(at, deck),
        _ => None,
    }
}

/// The answer to a refused input.
fn refused(alloc: Global, refusal: &Refused) -> Result<Answer, AllocError>
    ensures { IfOk result (λ a. IsRefused refusal.now a.status a.text) }
{
    let mut text = Text::new(alloc);
    refusal.put_line(&mut text)?;
    Ok(Answer { status: 1, text })
}

/// A refusal of the whole input, at no place.
fn refused_whole(alloc: Global, code: Code2) -> Refused
    ensures { result ≡ refused_whole code }
{
    Refused {
        code: DeckCode::Plain(code),
        spot: None,
        detail: Text::new(alloc),
    }
}

/// What is told of a deck that isn't refused by what is asked of it.
#[tactic(auto, using(crate::proofs::Fit::fit, crate::proofs::Fit::for_small, crate::proofs::Fit::is_whole))]
fn told(alloc: Global, request: &Request, deck: &Deck) -> Result<Answer, AllocError>
    requires fit { unfit request.now deck.now ≡ None }
    requires asked { answered request.now ≡ Some request.now }
    requires reads { reads_input request.now ≡ true }
    requires small { HasSmallValues request.now }
    ensures told { IfOk result (λ a. IsTold request.now deck.now a.status a.text) }
    ensures status { IfOk result (λ a. IsWhole a.status) }
{
    match request {
        Request::Eval { sums } => {
            let text = eval_text(alloc, *sums, deck.programs())?;
            Ok(Answer { status: 0, text })
        }
        Request::Check { at } => check(alloc, deck, at),
        Request::Show { at } => show(alloc, deck, at),
        Request::Search => {
            let text = search(alloc, deck)?;
            Ok(Answer { status: 0, text })
        }
        _ => unreachable!(),
    }
}

/// What is answered to an accepted deck.
fn answer_of(alloc: Global, request: &Request, deck: &Deck) -> Result<Answer, AllocError>
    requires asked { answered request.now ≡ Some request.now }
    requires reads { reads_input request.now ≡ true }
    requires small { HasSmallValues request.now }
    ensures told { IfOk result (λ a. IsAnswer request.now (Ok deck.now) a.status a.text) }
    ensures status { IfOk result (λ a. IsWhole a.status) }
{
    match unfit(request, deck) {
        Some(code) => refused(alloc, &refused_whole(alloc, code)),
        None => told(alloc, request, deck),
    }
}

/// What is answered to an input.
pub(crate) fn answer_to(
    alloc: Global,
    request: &Request,
    bytes: &[u8],
) -> Result<Answer, AllocError>
    requires asked { answered request.now ≡ Some request.now }
    requires reads { reads_input request.now ≡ true }
    requires small { HasSmallValues request.now }
    ensures told { IfOk result (λ a. IsAnswer request.now (deck_of bytes.now) a.status a.text) }
    ensures status { IfOk result (λ a. IsWhole a.status) }
{
    match read_deck(alloc, bytes) {
        Err(DeckError::Memory) => Err(AllocError),
        Err(DeckError::Refused(refusal)) => refused(alloc, &refusal),
        Ok(deck) => answer_of(alloc, request, &deck),
    }
}
