//! The parameters of a session.
ghost use Rattle.std.specs.Prelude.{◌≡◌, ◌≤◌, ◌<◌, ◌^◌, ◌+◌, [], length, IfOk, IsTrue};
ghost use Rattle.std.specs.List.{list_all};
ghost use Rattle.ch_grid.specs.Grid.{is_good};
ghost use Rattle.ch_nestparse.specs.Gives.{Gives};
ghost use Rattle.ch_workload.specs.Params.{begins_param, is_named, param_at, params_at, range_at};

use ch_affine::{List, Text};
use ch_grid::{Grid, GridError, Param};
use ch_lex::{Code2, Keyword, ParseError, Sign, Token};
use ch_nestparse::{Readings, begins, integer, keyword, name, place, refused, repeat, sign};
use std::alloc::{AllocError, Global};

/// Whether the name is that of parameter `k`.
fn is_named(names: &[Text], k: usize, text: &[u8]) -> bool
    ensures { result ≡ is_named names.now k text.now }
{
    match names.get(k) {
        Some(name) => name.as_bytes() == text,
        None => false,
    }
}

/// Whether the parameter is one of a grid.
#[tactic(auto, using(crate::proofs::Faults::alone_good, crate::proofs::Faults::alone_many, crate::proofs::Faults::alone_bad))]
fn is_good(alloc: Global, param: Param) -> Result<bool, AllocError>
    ensures { IfOk result (λ good. good ≡ is_good param) }
{
    let alone = List::from_slice(alloc, &[param])?;
    match Grid::of(alone) {
        Ok(_) => Ok(true),
        Err(GridError::TooManyPoints) => Ok(true),
        Err(GridError::BadParam { .. }) => Ok(false),
    }
}

/// The range of a parameter, behind its name.
#[tactic(auto, unfolding(crate::specs::Params::range_at))]
fn range<'a>(bytes: &[u8], tokens: &'a [Token]) -> Result<(Param, &'a [Token]), ParseError>
    requires { length bytes.now < 2 ^ 32 }
    ensures { Gives (λ r. (r.0, r.1.now)) result (range_at bytes.now tokens.now) }
{
    let rest = sign(bytes, Code2::D2, Sign::Equals, tokens)?;
    let (low, rest) = integer(bytes, Code2::D2, rest)?;
    let rest = keyword(bytes, Code2::D2, Keyword::To, rest)?;
    let (high, rest) = integer(bytes, Code2::D2, rest)?;
    let rest = keyword(bytes, Code2::D2, Keyword::Step, rest)?;
    let (step, rest) = integer(bytes, Code2::D2, rest)?;
    Ok((Param { low, high, step }, rest))
}

/// The parameters of a session, whose recipe's parameters have these names.
#[derive(Drop)]
struct MoreParams<'r, 't> {
    alloc: Global,
    bytes: &'t [u8],
    names: &'r [Text],
    ghost short: { length bytes.now < 2 ^ 32 },
}

impl Readings for MoreParams<'_, '_> {
    type State = List<Param>;

    ghost goes = { λ s. begins_param s.bytes.now };

    ghost one = { λ s. param_at s.bytes.now s.names.now };

    ghost keeps = { λ s params. (length params ≤ length s.names.now) × IsTrue (list_all is_good params) };

    fn goes(&self, tokens: &[Token]) -> bool {
        begins(self.bytes, Keyword::Param, tokens)
    }

    #[tactic(auto, unfolding(crate::specs::Params::param_at))]
    fn one<'a>(
        &self,
        params: List<Param>,
        tokens: &'a [Token],
    ) -> Result<(List<Param>, &'a [Token]), ParseError> {
        let mut params = params;
        let bytes = self.bytes;
        let rest = keyword(bytes, Code2::D2, Keyword::Param, tokens)?;
        let at = place(bytes, rest);
        let (text, rest) = name(bytes, Code2::D2, rest)?;
        if !is_named(self.names, params.len(), text) {
            return Err(refused(Code2::D4, at));
        }
        let (range, rest) = range(bytes, rest)?;
        if !is_good(self.alloc, range)? {
            return Err(refused(Code2::D5, at));
        }
        let rest = sign(bytes, Code2::D2, Sign::Semicolon, rest)?;
        params.push(range)?;
        Ok((params, rest))
    }
}

/// All parameters of a session, each of which has a good range.
#[tactic(auto, unfolding(crate::specs::Params::params_at))]
pub(crate) fn params<'a>(
    alloc: Global,
    bytes: &[u8],
    names: &[Text],
    tokens: &'a [Token],
) -> Result<(List<Param>, &'a [Token]), ParseError>
    requires short { length bytes.now < 2 ^ 32 }
    requires few { length names.now ≤ 6 }
    ensures exact { Gives (λ r. (r.0, r.1.now)) result (params_at bytes.now names.now tokens.now) }
    ensures few { IfOk result (λ r. length r.0 ≤ length names.now) }
    ensures good { IfOk result (λ r. IsTrue (list_all is_good r.0)) }
{
    let readings = MoreParams {
        alloc,
        bytes,
        names,
    };
    repeat(&readings, names.len() + 1, List::new(alloc), tokens)
}
