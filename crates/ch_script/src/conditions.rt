//! Conditions: between parameters, and of splits.
ghost use Rattle.std.specs.Prelude.{◌≡◌, ◌∷◌, [], ◌<◌, ◌^◌, length};
ghost use Rattle.ch_nestparse.specs.Gives.{Gives};
ghost use Rattle.ch_script.specs.Conditions.{condition_at, first_term_at, goes_on, known_term};
ghost use Rattle.ch_script.specs.Conditions.{more_term_at, named_alone, named_scaled};
ghost use Rattle.ch_script.specs.Conditions.{relation_if, scaled_at, sum_at, term, term_at};

use crate::names::{Scope, level_of};
use crate::recipe::{Cond, Of, Purpose, Relation, Term};
use ch_affine::List;
use ch_lex::{Code2, ParseError, Sign, Token};
use ch_nestparse::{Look, Readings, after, name, next_is, place, refused, repeat, seen, text_at};

/// What a name alone stands for.
fn named_alone(scope: &Scope<'_, '_>, purpose: Purpose, text: &[u8]) -> Option<Of>
    ensures { result ≡ named_alone purpose text.now scope.now.params.now }
{
    match purpose {
        Purpose::Require => scope.param(text).map(Of::Param),
        Purpose::Split => match level_of(text) {
            Some(l) => Some(Of::Level(l)),
            None => scope.param(text).map(Of::Param),
        },
    }
}

/// What a name behind a number and `*` stands for.
fn named_scaled(scope: &Scope<'_, '_>, purpose: Purpose, text: &[u8]) -> Option<Of>
    ensures { result ≡ named_scaled purpose text.now scope.now.params.now }
{
    match purpose {
        Purpose::Require => scope.param(text).map(Of::Param),
        Purpose::Split => level_of(text).map(Of::Level),
    }
}

/// The term of a known name, and the tokens after it, which are `tokens`.
fn known_term(
    negative: bool,
    factor: u32,
    at: u32,
    named: Option<Of>,
    tokens: &[Token],
) -> Result<(Term, &[Token]), ParseError>
    ensures { Gives (λ r. (r.0, r.1.now)) result (known_term negative factor at named tokens.now) }
{
    match named {
        Some(of) => Ok((
            Term {
                negative,
                factor,
                of,
            },
            tokens,
        )),
        None => Err(refused(Code2::R3, at)),
    }
}

/// A name behind a number and `*`.
#[tactic(auto, unfolding(crate::specs::Conditions::scaled_at))]
fn scaled<'a>(
    scope: &Scope<'_, '_>,
    purpose: Purpose,
    negative: bool,
    factor: u32,
    tokens: &'a [Token],
) -> Result<(Term, &'a [Token]), ParseError>
    ensures { Gives (λ r.
        (r.0, r.1.now)) result (scaled_at scope.now.bytes.now purpose scope.now.params.now negative factor tokens.now) }
{
    let (text, rest) = name(scope.bytes, Code2::R1, tokens)?;
    let named = named_scaled(scope, purpose, text);
    known_term(negative, factor, place(scope.bytes, tokens), named, rest)
}

/// A number, a name, or a number times a name.
#[tactic(auto, unfolding(crate::specs::Conditions::term_at))]
fn term<'a>(
    scope: &Scope<'_, '_>,
    purpose: Purpose,
    negative: bool,
    tokens: &'a [Token],
) -> Result<(Term, &'a [Token]), ParseError>
    ensures { Gives (λ r.
        (r.0, r.1.now)) result (term_at scope.now.bytes.now purpose scope.now.params.now negative tokens.now) }
{
    let at = place(scope.bytes, tokens);
    let rest = after(tokens);
    match seen(scope.bytes, tokens) {
        Look::Number(factor) => {
            if next_is(scope.bytes, Sign::Star, rest) {
                return scaled(scope, purpose, negative, factor, after(rest));
            }
            known_term(negative, factor, at, Some(Of::One), rest)
        }
        Look::Name => {
            let named = named_alone(scope, purpose, text_at(scope.bytes, tokens));
            known_term(negative, 1, at, named, rest)
        }
        _ => Err(refused(Code2::R1, at)),
    }
}

/// The terms behind the first of a sum.
#[derive(Drop)]
struct MoreTerms<'r, 't, 's> {
    scope: &'r Scope<'t, 's>,
    purpose: Purpose,
}

impl Readings for MoreTerms<'_, '_, '_> {
    type State = List<Term>;

    ghost goes = { λ s. goes_on s.scope.now.bytes.now };

    ghost one = { λ s. more_term_at s.scope.now.bytes.now s.purpose s.scope.now.params.now };

    ghost keeps = { λ s terms. Unit {0} };

    fn goes(&self, tokens: &[Token]) -> bool {
        next_is(self.scope.bytes, Sign::Plus, tokens)
            || next_is(self.scope.bytes, Sign::Minus, tokens)
    }

    #[tactic(auto, unfolding(crate::specs::Conditions::more_term_at))]
    fn one<'a>(
        &self,
        terms: List<Term>,
        tokens: &'a [Token],
    ) -> Result<(List<Term>, &'a [Token]), ParseError> {
        let mut terms = terms;
        let negative = next_is(self.scope.bytes, Sign::Minus, tokens);
        let (term, rest) = term(self.scope, self.purpose, negative, after(tokens))?;
        terms.push(term)?;
        Ok((terms, rest))
    }
}

/// The first term of a sum.
#[tactic(auto, unfolding(crate::specs::Conditions::first_term_at))]
fn first_term<'a>(
    scope: &Scope<'_, '_>,
    purpose: Purpose,
    tokens: &'a [Token],
) -> Result<(Term, &'a [Token]), ParseError>
    ensures { Gives (λ r.
        (r.0, r.1.now)) result (first_term_at scope.now.bytes.now purpose scope.now.params.now tokens.now) }
{
    if next_is(scope.bytes, Sign::Minus, tokens) {
        term(scope, purpose, true, after(tokens))
    } else {
        term(scope, purpose, false, tokens)
    }
}

/// One term and more.
#[tactic(auto, unfolding(crate::specs::Conditions::sum_at))]
fn sum<'a>(
    scope: &Scope<'_, '_>,
    purpose: Purpose,
    tokens: &'a [Token],
) -> Result<(List<Term>, &'a [Token]), ParseError>
    ensures { Gives (λ r.
        (r.0, r.1.now)) result (sum_at scope.now.bytes.now purpose scope.now.params.now tokens.now) }
{
    let (first, rest) = first_term(scope, purpose, tokens)?;
    let mut terms = List::new(scope.alloc);
    terms.push(first)?;
    repeat(&MoreTerms { scope, purpose }, rest.len(), terms, rest)
}

/// The relation, and the tokens after it, which are `tokens`.
fn relation_if(look: Look, at: u32, tokens: &[Token]) -> Result<(Relation, &[Token]), ParseError>
    ensures { Gives (λ r. (r.0, r.1.now)) result (relation_if look at tokens.now) }
{
    match look {
        Look::Sign(Sign::Less) => Ok((Relation::Less, tokens)),
        Look::Sign(Sign::AtMost) => Ok((Relation::AtMost, tokens)),
        Look::Sign(Sign::More) => Ok((Relation::More, tokens)),
        Look::Sign(Sign::AtLeast) => Ok((Relation::AtLeast, tokens)),
        _ => Err(refused(Code2::R1, at)),
    }
}

/// A sum, a relation and a sum.
#[tactic(auto, unfolding(crate::specs::Conditions::condition_at))]
pub(crate) fn condition<'a>(
    scope: &Scope<'_, '_>,
    purpose: Purpose,
    tokens: &'a [Token],
) -> Result<(Cond, &'a [Token]), ParseError>
    ensures { Gives (λ r.
        (r.0, r.1.now)) result (condition_at scope.now.bytes.now purpose scope.now.params.now tokens.now) }
{
    let (left, rest) = sum(scope, purpose, tokens)?;
    let (relation, rest) = relation_if(
        seen(scope.bytes, rest),
        place(scope.bytes, rest),
        after(rest),
    )?;
    let (right, rest) = sum(scope, purpose, rest)?;
    let condition = Cond {
        left,
        relation,
        right,
    };
    Ok((condition, rest))
}
