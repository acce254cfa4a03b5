//! What the words ask for.
ghost use Rattle.std.specs.Prelude.{◌≡◌, IfOk, IfSome, Some, map};
ghost use Rattle.std.specs.String.{string_bytes};
ghost use Rattle.ch_run.specs.Requests.{answered, asked_of};
ghost use Rattle.ch_words.specs.Requests.{HasSmallValues};

use ch_words::{Request, read_words};
use std::alloc::{AllocError, Global};

/// The request, where it is answered.
fn answered(request: Request) -> Option<Request>
    ensures { result ≡ answered request }
{
    match request {
        Request::Eval { sums } => Some(Request::Eval { sums }),
        Request::Check { at } => Some(Request::Check { at }),
        Request::Show { at } => Some(Request::Show { at }),
        Request::Search => Some(Request::Search),
        Request::Demo { number } => Some(Request::Demo { number }),
        _ => None,
    }
}

/// What these words, which stand after the program's name, ask for, where that is answered.
#[tactic(auto, using(crate::proofs::Asked::asked_is_answered, crate::proofs::Asked::asked_is_small))]
pub(crate) fn asked_of(alloc: Global, words: &[String]) -> Result<Option<Request>, AllocError>
    ensures exact { IfOk result (λ request. request ≡ asked_of (map string_bytes words.now)) }
    ensures answered { IfOk result (λ request. IfSome request (λ r. answered r ≡ Some r)) }
    ensures small { IfOk result (λ request. IfSome request HasSmallValues) }
{
    Ok(read_words(alloc, words)?.and_then(answered))
}
