ghost use Rattle.std.specs.Prelude.{◌≡◌, ◌≤◌, ◌<◌, ◌^◌, ◌∷◌, [], length};
ghost use Rattle.std.specs.Prelude.{map, true, IfOk, IsTrue, None};
ghost use Rattle.std.specs.List.{All, list_all};
ghost use Rattle.ch_nest.specs.Limits.{most_affine};
ghost use Rattle.ch_nest.specs.Shape.{coefs_fit, constant_fits, form_fits};
ghost use Rattle.ch_nest.specs.Shape.{is_at_most, step_fits, IsSmall};
ghost use Rattle.ch_nestparse.specs.Gives.{Gives};
ghost use Rattle.ch_nestparse.specs.Heads.{bounded, ends_at, head_at, high_at, last_of};
ghost use Rattle.ch_nestparse.specs.Heads.{low_at, more_at, next_at, next_is_comma};
ghost use Rattle.ch_nestparse.specs.Heads.{number_step_at, same_name_at, several_at};
ghost use Rattle.ch_nestparse.specs.Heads.{single_at, step_at, strict_if};
ghost use Rattle.ch_nestparse.specs.Read.{find_name};

use crate::affine::form;
use crate::ahead::{
    Ending, Look, after, begins, name, next_is, number, place, refused, seen, sign,
};
use crate::around::Around;
use crate::limits::{MORE_FORMS, MOST_AFFINE, MOST_NESTING, MOST_STEP};
use crate::scope::fresh;
use crate::series::{Readings, repeat};
use ch_affine::{Aff, List, Range};
use ch_lex::{Code2, Keyword, ParseError, Sign, Token};
use ch_nest::boxes::{least_of_greatest, low_end};
use std::alloc::{AllocError, Global};

/// The forms of a low or a high end, and the end of the loop's box that they give.
#[derive(Drop)]
pub struct Ends {
    pub forms: List<Aff>,
    pub end: i64,
}

/// The ends of a loop, its step, and the box of its iterator.
#[derive(Drop)]
pub(crate) struct Heading {
    pub(crate) lows: List<Aff>,
    pub(crate) highs: List<Aff>,
    pub(crate) step: u32,
    pub(crate) range: Range,
}

/// Forms that are listed behind the first, each behind a `,`.
#[derive(Drop)]
struct MoreForms<'r, 't, 's> {
    around: &'r Around<'t, 's>,
}

impl Readings for MoreForms<'_, '_, '_> {
    type State = List<Aff>;

    ghost goes = { λ s. next_is_comma s.around.now.bytes.now };

    ghost one = { λ s. more_at s.around.now.bytes.now s.around.now.names.now (length s.around.now.boxes.now) };

    ghost keeps = { λ s found. IsTrue (list_all (form_fits (length s.around.now.boxes.now)) found) };

    fn goes(&self, tokens: &[Token]) -> bool {
        next_is(self.around.bytes, Sign::Comma, tokens)
    }

    #[tactic(auto, unfolding(crate::specs::Heads::more_at), using(crate::proofs::Fitting::forms_push))]
    fn one<'a>(
        &self,
        found: List<Aff>,
        tokens: &'a [Token],
    ) -> Result<(List<Aff>, &'a [Token]), ParseError> {
        let mut found = found;
        let inside = after(tokens);
        let (form, rest) = form(self.around, MOST_NESTING, Ending::Listed, inside)?;
        found.push(form)?;
        Ok((found, rest))
    }
}

/// One form.
#[tactic(auto, unfolding(crate::specs::Heads::single_at), using(crate::proofs::Fitting::one_form))]
fn single<'a>(
    around: &Around<'_, '_>,
    tokens: &'a [Token],
) -> Result<(List<Aff>, &'a [Token]), ParseError>
    ensures exact { Gives (λ r.
        (r.0, r.1.now)) result (single_at around.now.bytes.now around.now.names.now (length around.now.boxes.now) tokens.now) }
    ensures fits { IfOk result (λ r.
        IsTrue (list_all (form_fits (length around.now.boxes.now)) r.0)) }
{
    let mut forms = List::new(around.alloc);
    let (form, rest) = form(around, MOST_NESTING, Ending::Semicolon, tokens)?;
    forms.push(form)?;
    Ok((forms, rest))
}

/// One to four forms in parentheses.
#[tactic(auto, unfolding(crate::specs::Heads::several_at), using(crate::proofs::Fitting::one_form))]
fn several<'a>(
    around: &Around<'_, '_>,
    tokens: &'a [Token],
) -> Result<(List<Aff>, &'a [Token]), ParseError>
    ensures exact { Gives (λ r.
        (r.0, r.1.now)) result (several_at around.now.bytes.now around.now.names.now (length around.now.boxes.now) tokens.now) }
    ensures fits { IfOk result (λ r.
        IsTrue (list_all (form_fits (length around.now.boxes.now)) r.0)) }
{
    let rest = sign(around.bytes, Code2::P1, Sign::LeftParen, tokens)?;
    let mut forms = List::new(around.alloc);
    let (first, rest) = form(around, MOST_NESTING, Ending::Listed, rest)?;
    forms.push(first)?;
    let (forms, rest) = repeat(&MoreForms { around }, MORE_FORMS, forms, rest)?;
    if next_is(around.bytes, Sign::Comma, rest) {
        return Err(refused(Code2::P1, place(around.bytes, after(rest))));
    }
    let rest = sign(around.bytes, Code2::P1, Sign::RightParen, rest)?;
    Ok((forms, rest))
}

/// One form, or some behind `word`.
#[tactic(auto, unfolding(crate::specs::Heads::ends_at))]
fn end_forms<'a>(
    around: &Around<'_, '_>,
    word: Keyword,
    tokens: &'a [Token],
) -> Result<(List<Aff>, &'a [Token]), ParseError>
    ensures exact { Gives (λ r.
        (r.0, r.1.now)) result (ends_at around.now.bytes.now word around.now.names.now (length around.now.boxes.now) tokens.now) }
    ensures fits { IfOk result (λ r.
        IsTrue (list_all (form_fits (length around.now.boxes.now)) r.0)) }
{
    if begins(around.bytes, word, tokens) {
        several(around, after(tokens))
    } else {
        single(around, tokens)
    }
}

fn is_near(end: i128) -> bool
    ensures { result ≡ is_at_most most_affine end }
{
    end.unsigned_abs() <= MOST_AFFINE as u128
}

/// The end of a box, where it keeps the limit; it is refused at byte `at`.
fn bounded(at: u32, end: i128) -> Result<i64, ParseError>
    ensures exact { Gives (λ z. z) result (bounded at end) }
    ensures near { IfOk result (λ z. is_at_most most_affine z ≡ true) }
{
    if is_near(end) {
        return Ok(end as i64);
    }
    Err(ParseError::Refused {
        code: Code2::A1,
        at,
        value: end,
    })
}

/// The low end of a loop. The box ends are refused at byte `at`.
#[tactic(auto, unfolding(crate::specs::Heads::low_at), using(crate::proofs::Fitting::coefs_of))]
fn low<'a>(
    around: &Around<'_, '_>,
    at: u32,
    tokens: &'a [Token],
) -> Result<(Ends, &'a [Token]), ParseError>
    ensures exact { Gives (λ r.
        (r.0, r.1.now)) result (low_at around.now.bytes.now around.now.names.now around.now.boxes.now at tokens.now) }
    ensures near { IfOk result (λ r. is_at_most most_affine r.0.end ≡ true) }
{
    let (forms, rest) = end_forms(around, Keyword::Max, tokens)?;
    let end = bounded(at, low_end(around.boxes, forms.as_slice()))?;
    Ok((Ends { forms, end }, rest))
}

/// The loop's own name once more.
#[tactic(auto, unfolding(crate::specs::Heads::same_name_at))]
fn same_name<'a>(bytes: &[u8], text: &[u8], tokens: &'a [Token]) -> Result<&'a [Token], ParseError>
    requires { length bytes.now < 2 ^ 32 }
    ensures { Gives (λ r. r.now) result (same_name_at bytes.now text.now tokens.now) }
{
    let (other, rest) = name(bytes, Code2::P1, tokens)?;
    if text == other {
        Ok(rest)
    } else {
        Err(refused(Code2::P1, place(bytes, tokens)))
    }
}

/// Whether a relation is `<`, and the tokens after it, which are `tokens`.
fn strict_if(look: Look, at: u32, tokens: &[Token]) -> Result<(bool, &[Token]), ParseError>
    ensures { Gives (λ r. (r.0, r.1.now)) result (strict_if look at tokens.now) }
{
    match look {
        Look::Sign(Sign::Less) => Ok((true, tokens)),
        Look::Sign(Sign::AtMost) => Ok((false, tokens)),
        _ => Err(refused(Code2::P1, at)),
    }
}

/// The last value that stays below a form, or doesn't pass it.
fn last_of(alloc: Global, strict: bool, form: &Aff) -> Result<Aff, AllocError>
    requires { IsTrue (constant_fits form.now) }
    ensures { IfOk result (λ f. f ≡ last_of strict form.now) }
{
    let mut last = form.copied(alloc)?;
    if strict {
        last.constant -= 1;
    }
    Ok(last)
}

/// The last values of an iterator that each of the forms allows.
fn lasts(alloc: Global, strict: bool, forms: &[Aff]) -> Result<List<Aff>, AllocError>
    requires { IsTrue (list_all constant_fits forms.now) }
    ensures { IfOk result (λ fs. fs ≡ map (last_of strict) forms.now) }
{
    let mut lasts = List::new(alloc);
    for form in forms {
        lasts.push(last_of(alloc, strict, form)?)?;
    }
    Ok(lasts)
}

/// The relation of a loop and its high end, where its box begins at `low`.
#[tactic(auto, unfolding(crate::specs::Heads::high_at), using(crate::proofs::Fitting::constants_of, crate::proofs::Fitting::lasts_fit))]
fn high<'a>(
    around: &Around<'_, '_>,
    at: u32,
    low: i64,
    tokens: &'a [Token],
) -> Result<(Ends, &'a [Token]), ParseError>
    ensures exact { Gives (λ r.
        (r.0, r.1.now)) result (high_at around.now.bytes.now around.now.names.now around.now.boxes.now at low tokens.now) }
    ensures near { IfOk result (λ r. is_at_most most_affine r.0.end ≡ true) }
{
    let (strict, rest) = strict_if(
        seen(around.bytes, tokens),
        place(around.bytes, tokens),
        after(tokens),
    )?;
    let (written, rest) = end_forms(around, Keyword::Min, rest)?;
    let forms = lasts(around.alloc, strict, written.as_slice())?;
    let end = i128::from(low).max(least_of_greatest(around.boxes, forms.as_slice()));
    let end = bounded(at, end)?;
    Ok((Ends { forms, end }, rest))
}

/// Whether a loop may have this step, where its low end has these forms.
fn step_fits(step: u32, lows: &[Aff]) -> bool
    ensures { result ≡ step_fits step lows.now }
{
    (step >= 1 && step <= MOST_STEP) && (step == 1 || lows.len() == 1)
}

/// What the value grows by, behind the loop's name, where the low end has these forms.
#[tactic(auto, unfolding(crate::specs::Heads::number_step_at))]
fn number_step<'a>(
    bytes: &[u8],
    text: &[u8],
    lows: &[Aff],
    tokens: &'a [Token],
) -> Result<(u32, &'a [Token]), ParseError>
    requires { length bytes.now < 2 ^ 32 }
    ensures { Gives (λ r.
        (r.0, r.1.now)) result (number_step_at bytes.now text.now lows.now tokens.now) }
{
    let rest = sign(bytes, Code2::P1, Sign::Equals, tokens)?;
    let rest = same_name(bytes, text, rest)?;
    let before = sign(bytes, Code2::P1, Sign::Plus, rest)?;
    let (step, rest) = number(bytes, Code2::P1, before)?;
    if step_fits(step, lows) {
        Ok((step, rest))
    } else {
        Err(refused(Code2::P7, place(bytes, before)))
    }
}

/// What the value grows by, behind the loop's name.
#[tactic(auto, unfolding(crate::specs::Heads::next_at))]
fn next<'a>(
    bytes: &[u8],
    text: &[u8],
    lows: &[Aff],
    tokens: &'a [Token],
) -> Result<(u32, &'a [Token]), ParseError>
    requires { length bytes.now < 2 ^ 32 }
    ensures { Gives (λ r. (r.0, r.1.now)) result (next_at bytes.now text.now lows.now tokens.now) }
{
    if next_is(bytes, Sign::Increment, tokens) {
        Ok((1, after(tokens)))
    } else {
        number_step(bytes, text, lows, tokens)
    }
}

/// The step of a loop, up to the closing parenthesis.
#[tactic(auto, unfolding(crate::specs::Heads::step_at))]
fn step<'a>(
    bytes: &[u8],
    text: &[u8],
    lows: &[Aff],
    tokens: &'a [Token],
) -> Result<(u32, &'a [Token]), ParseError>
    requires { length bytes.now < 2 ^ 32 }
    ensures { Gives (λ r. (r.0, r.1.now)) result (step_at bytes.now text.now lows.now tokens.now) }
{
    let rest = same_name(bytes, text, tokens)?;
    let (step, rest) = next(bytes, text, lows, rest)?;
    let rest = sign(bytes, Code2::P1, Sign::RightParen, rest)?;
    Ok((step, rest))
}

/// The head of a loop behind its `for`, which stands at byte `at`: its name, its ends, its step,
/// and the box of its iterator.
#[tactic(auto, unfolding(crate::specs::Heads::head_at))]
pub(crate) fn head<'a, 'b>(
    around: &Around<'b, '_>,
    at: u32,
    tokens: &'a [Token],
) -> Result<(&'b [u8], Heading, &'a [Token]), ParseError>
    ensures exact { Gives (λ r.
        (record { name = r.0.now; lows = r.1.lows; highs = r.1.highs; step = r.1.step; box = r.1.range }, r.2.now)) result (head_at around.now.bytes.now around.now.names.now around.now.boxes.now at tokens.now) }
    ensures absent { IfOk result (λ r. find_name r.0.now around.now.names.now ≡ None) }
    ensures small { IfOk result (λ r. IsSmall r.1.range) }
{
    let rest = sign(around.bytes, Code2::P1, Sign::LeftParen, tokens)?;
    let (text, rest) = fresh(around.bytes, around.names, rest)?;
    let rest = sign(around.bytes, Code2::P1, Sign::Equals, rest)?;
    let (lows, rest) = low(around, at, rest)?;
    let rest = sign(around.bytes, Code2::P1, Sign::Semicolon, rest)?;
    let rest = same_name(around.bytes, text, rest)?;
    let (highs, rest) = high(around, at, lows.end, rest)?;
    let rest = sign(around.bytes, Code2::P1, Sign::Semicolon, rest)?;
    let (step, rest) = step(around.bytes, text, lows.forms.as_slice(), rest)?;
    let range = Range {
        low: lows.end,
        high: highs.end,
    };
    let Ends { forms: lows, .. } = lows;
    let Ends { forms: highs, .. } = highs;
    let head = Heading {
        lows,
        highs,
        step,
        range,
    };
    Ok((text, head, rest))
}
