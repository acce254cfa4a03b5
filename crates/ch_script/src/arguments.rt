//! The arguments of commands: numbers and parameters, and lists of them.
ghost use Rattle.std.specs.Prelude.{◌≡◌, ◌∷◌, [], length};
ghost use Rattle.ch_nestparse.specs.Gives.{Gives};
ghost use Rattle.ch_script.specs.Arguments.{arg_at, arg_by, arg_comma_at, list_at};
ghost use Rattle.ch_script.specs.Arguments.{list_comma_at, more_arg_at, param_arg};
ghost use Rattle.ch_script.specs.Names.{next_is_comma};

use crate::names::Scope;
use crate::recipe::Arg;
use ch_affine::List;
use ch_lex::{Code2, ParseError, Sign, Token};
use ch_nestparse::{
    Look, Readings, after, integer, next_is, place, refused, repeat, seen, sign, text_at,
};

/// An argument.
#[tactic(auto, unfolding(crate::specs::Arguments::arg_at))]
pub(crate) fn arg<'a>(
    scope: &Scope<'_, '_>,
    tokens: &'a [Token],
) -> Result<(Arg, &'a [Token]), ParseError>
    ensures { Gives (λ r.
        (r.0, r.1.now)) result (arg_at scope.now.bytes.now scope.now.params.now tokens.now) }
{
    match seen(scope.bytes, tokens) {
        Look::Name => match scope.param(text_at(scope.bytes, tokens)) {
            Some(k) => Ok((Arg::Param(k), after(tokens))),
            None => Err(refused(Code2::R3, place(scope.bytes, tokens))),
        },
        _ => {
            let (number, rest) = integer(scope.bytes, Code2::R1, tokens)?;
            Ok((Arg::Number(number), rest))
        }
    }
}

/// An argument and the `,` behind it.
#[tactic(auto, unfolding(crate::specs::Arguments::arg_comma_at))]
pub(crate) fn arg_comma<'a>(
    scope: &Scope<'_, '_>,
    tokens: &'a [Token],
) -> Result<(Arg, &'a [Token]), ParseError>
    ensures { Gives (λ r.
        (r.0, r.1.now)) result (arg_comma_at scope.now.bytes.now scope.now.params.now tokens.now) }
{
    let (arg, rest) = arg(scope, tokens)?;
    let rest = sign(scope.bytes, Code2::R1, Sign::Comma, rest)?;
    Ok((arg, rest))
}

/// The arguments behind the first of a list.
#[derive(Drop)]
struct MoreArgs<'r, 't, 's> {
    scope: &'r Scope<'t, 's>,
}

impl Readings for MoreArgs<'_, '_, '_> {
    type State = List<Arg>;

    ghost goes = { λ s. next_is_comma s.scope.now.bytes.now };

    ghost one = { λ s. more_arg_at s.scope.now.bytes.now s.scope.now.params.now };

    ghost keeps = { λ s args. Unit {0} };

    fn goes(&self, tokens: &[Token]) -> bool {
        next_is(self.scope.bytes, Sign::Comma, tokens)
    }

    #[tactic(auto, unfolding(crate::specs::Arguments::more_arg_at))]
    fn one<'a>(
        &self,
        args: List<Arg>,
        tokens: &'a [Token],
    ) -> Result<(List<Arg>, &'a [Token]), ParseError> {
        let mut args = args;
        let rest = sign(self.scope.bytes, Code2::R1, Sign::Comma, tokens)?;
        let (arg, rest) = arg(self.scope, rest)?;
        args.push(arg)?;
        Ok((args, rest))
    }
}

/// One argument and more in brackets.
#[tactic(auto, unfolding(crate::specs::Arguments::list_at))]
pub(crate) fn list<'a>(
    scope: &Scope<'_, '_>,
    tokens: &'a [Token],
) -> Result<(List<Arg>, &'a [Token]), ParseError>
    ensures { Gives (λ r.
        (r.0, r.1.now)) result (list_at scope.now.bytes.now scope.now.params.now tokens.now) }
{
    let rest = sign(scope.bytes, Code2::R1, Sign::LeftBracket, tokens)?;
    let (first, rest) = arg(scope, rest)?;
    let mut args = List::new(scope.alloc);
    args.push(first)?;
    let (args, rest) = repeat(&MoreArgs { scope }, rest.len(), args, rest)?;
    let rest = sign(scope.bytes, Code2::R1, Sign::RightBracket, rest)?;
    Ok((args, rest))
}

/// A list and the `,` behind it.
#[tactic(auto, unfolding(crate::specs::Arguments::list_comma_at))]
pub(crate) fn list_comma<'a>(
    scope: &Scope<'_, '_>,
    tokens: &'a [Token],
) -> Result<(List<Arg>, &'a [Token]), ParseError>
    ensures { Gives (λ r.
        (r.0, r.1.now)) result (list_comma_at scope.now.bytes.now scope.now.params.now tokens.now) }
{
    let (args, rest) = list(scope, tokens)?;
    let rest = sign(scope.bytes, Code2::R1, Sign::Comma, rest)?;
    Ok((args, rest))
}
