//! The machine of a client.
ghost use Rattle.std.specs.Prelude.{◌≡◌, ◌≤◌, ◌<◌, ◌^◌, length, IfOk};
ghost use Rattle.ch_nestparse.specs.Gives.{Gives};
ghost use Rattle.ch_workload.specs.Machines.{between_at, listed_at, machine_at};
ghost use Rattle.ch_workload.specs.Machines.{numbers_at, usual_machine};

use ch_lex::{Code2, Keyword, ParseError, Sign, Token};
use ch_nest::Machine;
use ch_nest::limits::{MOST_CACHE, MOST_CHARGE};
use ch_nestparse::{begins, keyword, number, place, refused, sign};

/// The machine of a client that names none.
fn usual_machine() -> Machine
    ensures { result ≡ usual_machine }
{
    let Some(machine) = Machine::new(1, 8, 16, 4) else {
        unreachable!()
    };
    machine
}

/// A number from `low` to `high`.
#[tactic(auto, unfolding(crate::specs::Machines::between_at))]
fn between<'a>(
    bytes: &[u8],
    low: u32,
    high: u32,
    tokens: &'a [Token],
) -> Result<(u32, &'a [Token]), ParseError>
    requires { length bytes.now < 2 ^ 32 }
    ensures exact { Gives (λ r. (r.0, r.1.now)) result (between_at bytes.now low high tokens.now) }
    ensures low { IfOk result (λ r. low ≤ r.0) }
    ensures high { IfOk result (λ r. r.0 ≤ high) }
{
    let (n, rest) = number(bytes, Code2::D2, tokens)?;
    if low <= n && n <= high {
        Ok((n, rest))
    } else {
        Err(refused(Code2::D9, place(bytes, tokens)))
    }
}

/// A number from `low` to `high` and the `,` behind it.
#[tactic(auto, unfolding(crate::specs::Machines::listed_at))]
fn listed<'a>(
    bytes: &[u8],
    low: u32,
    high: u32,
    tokens: &'a [Token],
) -> Result<(u32, &'a [Token]), ParseError>
    requires { length bytes.now < 2 ^ 32 }
    ensures exact { Gives (λ r. (r.0, r.1.now)) result (listed_at bytes.now low high tokens.now) }
    ensures low { IfOk result (λ r. low ≤ r.0) }
    ensures high { IfOk result (λ r. r.0 ≤ high) }
{
    let (n, rest) = between(bytes, low, high, tokens)?;
    let rest = sign(bytes, Code2::D2, Sign::Comma, rest)?;
    Ok((n, rest))
}

/// A machine that is named.
#[tactic(auto, unfolding(crate::specs::Machines::numbers_at))]
fn numbers<'a>(bytes: &[u8], tokens: &'a [Token]) -> Result<(Machine, &'a [Token]), ParseError>
    requires { length bytes.now < 2 ^ 32 }
    ensures { Gives (λ r. (r.0, r.1.now)) result (numbers_at bytes.now tokens.now) }
{
    let rest = keyword(bytes, Code2::D2, Keyword::Machine, tokens)?;
    let rest = sign(bytes, Code2::D2, Sign::LeftParen, rest)?;
    let (turn, rest) = listed(bytes, 0, MOST_CHARGE, rest)?;
    let (miss, rest) = listed(bytes, 0, MOST_CHARGE, rest)?;
    let (lines, rest) = listed(bytes, 1, MOST_CACHE, rest)?;
    let (width, rest) = between(bytes, 1, MOST_CACHE, rest)?;
    let rest = sign(bytes, Code2::D2, Sign::RightParen, rest)?;
    let Some(machine) = Machine::new(turn, miss, lines, width) else {
        unreachable!()
    };
    Ok((machine, rest))
}

/// The machine of a client, which may be left out.
#[tactic(auto, unfolding(crate::specs::Machines::machine_at))]
pub(crate) fn machine<'a>(
    bytes: &[u8],
    tokens: &'a [Token],
) -> Result<(Machine, &'a [Token]), ParseError>
    requires { length bytes.now < 2 ^ 32 }
    ensures { Gives (λ r. (r.0, r.1.now)) result (machine_at bytes.now tokens.now) }
{
    if begins(bytes, Keyword::Machine, tokens) {
        numbers(bytes, tokens)
    } else {
        Ok((usual_machine(), tokens))
    }
}
