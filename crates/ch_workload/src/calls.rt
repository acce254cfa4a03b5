//! The calls of a client.
ghost use Rattle.std.specs.Prelude.{◌≡◌, ◌≤◌, ◌+◌, length, IfOk};
ghost use Rattle.ch_nestparse.specs.Gives.{Gives};
ghost use Rattle.ch_workload.specs.Calls.{begins_call, call_at, calls_at, is_count, no_calls};

use crate::limits::MOST_CALLS;
use crate::names::{Scope, session};
use ch_affine::List;
use ch_lex::{Code2, Keyword, ParseError, Sign, Token};
use ch_nestparse::{Readings, begins, keyword, number, place, refused, repeat, sign};

/// Calls of one session, one after another.
#[derive(Clone, Copy, Debug, PartialEq, Eq)]
pub struct CallDecl {
    /// The number of the session in the deck, from 0.
    pub session: u32,
    /// How many calls there are, at least 1.
    pub times: u32,
}

/// The lines of calls that were read, and how many calls they make.
#[derive(Drop)]
pub struct Called {
    pub calls: List<CallDecl>,
    pub total: u32,
}

/// Whether a line may make so many calls behind lines that make `total`.
fn is_count(total: u32, times: u32) -> bool
    ensures { result ≡ is_count total times }
{
    1 <= times && u64::from(total) + u64::from(times) <= MOST_CALLS
}

/// The lines of calls.
#[derive(Drop)]
struct MoreCalls<'r, 't, 'd> {
    scope: &'r Scope<'t, 'd>,
}

impl Readings for MoreCalls<'_, '_, '_> {
    type State = Called;

    ghost goes = { λ s. begins_call s.scope.now.bytes.now };

    ghost one = { λ s. call_at s.scope.now.bytes.now s.scope.now.sessions.now };

    ghost keeps = { λ s called. called.total ≤ 10000 };

    fn goes(&self, tokens: &[Token]) -> bool {
        begins(self.scope.bytes, Keyword::Call, tokens)
    }

    #[tactic(auto, unfolding(crate::specs::Calls::call_at))]
    fn one<'a>(
        &self,
        called: Called,
        tokens: &'a [Token],
    ) -> Result<(Called, &'a [Token]), ParseError> {
        let mut called = called;
        let scope = self.scope;
        let rest = keyword(scope.bytes, Code2::D2, Keyword::Call, tokens)?;
        let (session, rest) = session(scope, rest)?;
        let at = place(scope.bytes, rest);
        let (times, rest) = number(scope.bytes, Code2::D2, rest)?;
        if !is_count(called.total, times) {
            return Err(refused(Code2::D7, at));
        }
        let rest = sign(scope.bytes, Code2::D2, Sign::Semicolon, rest)?;
        called.calls.push(CallDecl { session, times })?;
        called.total += times;
        Ok((called, rest))
    }
}

/// All calls of a client.
#[tactic(auto, unfolding(crate::specs::Calls::calls_at))]
pub(crate) fn calls<'a>(
    scope: &Scope<'_, '_>,
    tokens: &'a [Token],
) -> Result<(Called, &'a [Token]), ParseError>
    ensures { Gives (λ r.
        (r.0, r.1.now)) result (calls_at scope.now.bytes.now scope.now.sessions.now tokens.now) }
{
    let readings = MoreCalls { scope };
    let none = Called {
        calls: List::new(scope.alloc),
        total: 0,
    };
    let (first, rest) = readings.one(none, tokens)?;
    repeat(&readings, rest.len(), first, rest)
}
