//! The fills of a client.
ghost use Rattle.std.specs.Prelude.{◌≡◌, ◌≤◌, ◌<◌, ◌^◌, length, map, IfOk, IsTrue};
ghost use Rattle.std.specs.List.{list_all};
ghost use Rattle.ch_nest.specs.Shape.{arrays_fit};
ghost use Rattle.ch_nestparse.specs.Gives.{Gives};
ghost use Rattle.ch_workload.specs.Fills.{arrays_of, begins_fill, fill_at, fill_fits, fills_at};
ghost use Rattle.ch_workload.specs.Fills.{fills_differ, is_filled, is_for, values_at};

use crate::names::{Scope, array, program};
use ch_affine::List;
use ch_lex::{Code2, Keyword, ParseError, Sign, Token};
use ch_nest::{ArrayDecl, Fill};
use ch_nestparse::{
    ParsedProgram, Readings, begins, integer, keyword, place, refused, repeat, sign,
};

/// How an array of a program starts for a client, in place of the program's fill.
#[derive(Clone, Copy, Debug, PartialEq, Eq)]
pub struct ClientFill {
    /// The number of the program in the deck, from 0.
    pub program: u32,
    /// The number of the array in the program, from 0.
    pub array: u32,
    pub fill: Fill,
}

/// The arrays of the program of this number.
#[tactic(auto, using(crate::proofs::Faults::few_arrays))]
fn arrays_of(programs: &[ParsedProgram], k: u32) -> &[ArrayDecl]
    requires { k < length programs.now }
    ensures value { result.now ≡ arrays_of programs.now k }
    ensures few { length result.now ≤ 262144 }
{
    let nest = &programs[k as usize].nest;
    nest.known();
    nest.arrays.as_slice()
}

fn is_for(program: u32, array: u32, fill: &ClientFill) -> bool
    ensures { result ≡ is_for program array fill.now }
{
    fill.program == program && fill.array == array
}

/// Whether one of these fills is for this array.
fn is_filled(program: u32, array: u32, fills: &[ClientFill]) -> bool
    ensures { result ≡ is_filled program array fills.now }
{
    for fill in fills {
        if is_for(program, array, fill) {
            return true;
        }
    }
    false
}

/// The numbers of a fill.
#[tactic(auto, unfolding(crate::specs::Fills::values_at))]
fn values<'a>(bytes: &[u8], tokens: &'a [Token]) -> Result<(Fill, &'a [Token]), ParseError>
    requires { length bytes.now < 2 ^ 32 }
    ensures { Gives (λ r. (r.0, r.1.now)) result (values_at bytes.now tokens.now) }
{
    let rest = sign(bytes, Code2::D2, Sign::LeftParen, tokens)?;
    let (a, rest) = integer(bytes, Code2::D2, rest)?;
    let rest = sign(bytes, Code2::D2, Sign::Comma, rest)?;
    let (b, rest) = integer(bytes, Code2::D2, rest)?;
    let rest = sign(bytes, Code2::D2, Sign::RightParen, rest)?;
    let rest = sign(bytes, Code2::D2, Sign::Semicolon, rest)?;
    Ok((Fill { a, b }, rest))
}

/// The fills.
#[derive(Drop)]
struct MoreFills<'r, 't, 'd> {
    scope: &'r Scope<'t, 'd>,
}

impl Readings for MoreFills<'_, '_, '_> {
    type State = List<ClientFill>;

    ghost goes = { λ s. begins_fill s.scope.now.bytes.now };

    ghost one = { λ s. fill_at s.scope.now.bytes.now s.scope.now.programs.now };

    ghost keeps = { λ s fills. Unit {0} };

    fn goes(&self, tokens: &[Token]) -> bool {
        begins(self.scope.bytes, Keyword::Fill, tokens)
    }

    #[tactic(auto, unfolding(crate::specs::Fills::fill_at))]
    fn one<'a>(
        &self,
        fills: List<ClientFill>,
        tokens: &'a [Token],
    ) -> Result<(List<ClientFill>, &'a [Token]), ParseError> {
        let mut fills = fills;
        let scope = self.scope;
        let rest = keyword(scope.bytes, Code2::D2, Keyword::Fill, tokens)?;
        let (program, rest) = program(scope, rest)?;
        let at = place(scope.bytes, rest);
        let (array, rest) = array(scope.bytes, arrays_of(scope.programs, program), rest)?;
        if is_filled(program, array, fills.as_slice()) {
            return Err(refused(Code2::D3, at));
        }
        let (fill, rest) = values(scope.bytes, rest)?;
        fills.push(ClientFill {
            program,
            array,
            fill,
        })?;
        Ok((fills, rest))
    }
}

/// All fills of a client.
#[tactic(auto, unfolding(crate::specs::Fills::fills_at))]
pub(crate) fn fills<'a>(
    scope: &Scope<'_, '_>,
    tokens: &'a [Token],
) -> Result<(List<ClientFill>, &'a [Token]), ParseError>
    ensures { Gives (λ r.
        (r.0, r.1.now)) result (fills_at scope.now.bytes.now scope.now.programs.now tokens.now) }
{
    repeat(
        &MoreFills { scope },
        tokens.len(),
        List::new(scope.alloc),
        tokens,
    )
}
