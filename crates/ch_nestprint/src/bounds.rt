ghost use Rattle.std.specs.Prelude.{◌≡◌, ◌<◌, ◌≤◌, ◌^◌, ℤ, pos, ◌≤ℤ◌, ◌<ℤ◌, ◌+ℤ◌};
ghost use Rattle.std.specs.Prelude.{[], ◌∷◌, ◌++◌, OnOk, unsigned_abs, int_lt};
ghost use Rattle.std.specs.List.{flat_map, list_all};
ghost use Rattle.ch_nest.specs.Shape.{constant_fits};
ghost use Rattle.ch_nestprint.specs.Ends.{beginning_symbols, comma_end, end_symbols};
ghost use Rattle.ch_nestprint.specs.Ends.{ends_symbols, head_symbols, highs_symbols};
ghost use Rattle.ch_nestprint.specs.Ends.{is_strict, limit_symbols, listed, lows_symbols};
ghost use Rattle.ch_nestprint.specs.Ends.{next_symbols, raised_if, relation, step_symbols};
ghost use Rattle.ch_nestprint.specs.Names.{iterator_name};

use crate::forms::put_form;
use crate::limits::MOST_AFFINE;
use crate::named::put_iterator;
use crate::symbol::{Symbol, key, mark, number};
use ch_affine::{Aff, List};
use ch_lex::{Keyword, Sign};
use std::alloc::{AllocError, Global};

fn put_end(
    alloc: Global,
    out: &mut List<Symbol>,
    letters: usize,
    raises: bool,
    form: &Aff,
) -> Result<(), AllocError>
    ensures { OnOk result (out.new ≡ out.old ++ end_symbols letters raises form.now) }
{
    let constant = if raises {
        form.constant + 1
    } else {
        form.constant
    };
    put_form(alloc, out, letters, form.coefs.as_slice(), constant)
}

fn put_more(
    alloc: Global,
    out: &mut List<Symbol>,
    letters: usize,
    raises: bool,
    forms: &[Aff],
) -> Result<(), AllocError>
    ensures { OnOk result (out.new ≡ out.old ++ flat_map (comma_end letters raises) forms.now) }
{
    for form in forms {
        mark(out, Sign::Comma)?;
        put_end(alloc, out, letters, raises, form)?;
    }
    Ok(())
}

fn put_listed(
    alloc: Global,
    out: &mut List<Symbol>,
    letters: usize,
    raises: bool,
    forms: &[Aff],
) -> Result<(), AllocError>
    ensures { OnOk result (out.new ≡ out.old ++ listed letters raises forms.now) }
{
    match forms {
        [] => Ok(()),
        [first, others @ ..] => {
            put_end(alloc, out, letters, raises, first)?;
            put_more(alloc, out, letters, raises, others)
        }
    }
}

fn put_ends(
    alloc: Global,
    out: &mut List<Symbol>,
    letters: usize,
    word: Keyword,
    raises: bool,
    forms: &[Aff],
) -> Result<(), AllocError>
    ensures { OnOk result (out.new ≡ out.old ++ ends_symbols letters word raises forms.now) }
{
    if let [only] = forms {
        return put_end(alloc, out, letters, raises, only);
    }
    key(out, word)?;
    mark(out, Sign::LeftParen)?;
    put_listed(alloc, out, letters, raises, forms)?;
    mark(out, Sign::RightParen)
}

fn constant_fits(form: &Aff) -> bool
    ensures { result ≡ constant_fits form.now }
{
    form.constant.unsigned_abs() <= MOST_AFFINE as u64
}

fn all_constants_fit(highs: &[Aff]) -> bool
    ensures { result ≡ list_all constant_fits highs.now }
{
    highs.iter().all(|f| constant_fits(f))
}

fn is_strict(highs: &[Aff]) -> bool
    ensures { result ≡ is_strict highs.now }
{
    !all_constants_fit(highs)
}

fn relation(strict: bool) -> Sign
    ensures { result ≡ relation strict }
{
    if strict { Sign::Less } else { Sign::AtMost }
}

fn put_highs(
    alloc: Global,
    out: &mut List<Symbol>,
    letters: usize,
    highs: &[Aff],
) -> Result<(), AllocError>
    ensures { OnOk result (out.new ≡ out.old ++ highs_symbols letters highs.now) }
{
    let strict = is_strict(highs);
    mark(out, relation(strict))?;
    put_ends(alloc, out, letters, Keyword::Min, strict, highs)
}

fn put_lows(
    alloc: Global,
    out: &mut List<Symbol>,
    letters: usize,
    lows: &[Aff],
) -> Result<(), AllocError>
    ensures { OnOk result (out.new ≡ out.old ++ lows_symbols letters lows.now) }
{
    put_ends(alloc, out, letters, Keyword::Max, false, lows)
}

/// Adds `(`, the iterator, `=` and the low ends.
fn put_beginning(
    alloc: Global,
    out: &mut List<Symbol>,
    letters: usize,
    level: u64,
    lows: &[Aff],
) -> Result<(), AllocError>
    ensures { OnOk result (out.new ≡ out.old ++ beginning_symbols letters level lows.now) }
{
    mark(out, Sign::LeftParen)?;
    put_iterator(alloc, out, letters, level)?;
    mark(out, Sign::Equals)?;
    put_lows(alloc, out, letters, lows)
}

/// Adds `;`, the iterator, the relation and the high ends.
fn put_limit(
    alloc: Global,
    out: &mut List<Symbol>,
    letters: usize,
    level: u64,
    highs: &[Aff],
) -> Result<(), AllocError>
    ensures { OnOk result (out.new ≡ out.old ++ limit_symbols letters level highs.now) }
{
    mark(out, Sign::Semicolon)?;
    put_iterator(alloc, out, letters, level)?;
    put_highs(alloc, out, letters, highs)
}

/// Adds the iterator, and `++` or what is added to it from turn to turn.
fn put_next(
    alloc: Global,
    out: &mut List<Symbol>,
    letters: usize,
    level: u64,
    step: u32,
) -> Result<(), AllocError>
    ensures { OnOk result (out.new ≡ out.old ++ next_symbols (iterator_name letters level) step) }
{
    put_iterator(alloc, out, letters, level)?;
    if step == 1 {
        return mark(out, Sign::Increment);
    }
    mark(out, Sign::Equals)?;
    put_iterator(alloc, out, letters, level)?;
    mark(out, Sign::Plus)?;
    number(out, u64::from(step))
}

/// Adds `;`, what the iterator grows by, and `)`.
fn put_step(
    alloc: Global,
    out: &mut List<Symbol>,
    letters: usize,
    level: u64,
    step: u32,
) -> Result<(), AllocError>
    ensures { OnOk result (out.new ≡ out.old ++ step_symbols letters level step) }
{
    mark(out, Sign::Semicolon)?;
    put_next(alloc, out, letters, level, step)?;
    mark(out, Sign::RightParen)
}

/// What stands between `for` and the body of a loop.
#[derive(Clone, Copy, Debug)]
pub struct Head<'a> {
    /// How many loops stand around it.
    pub level: u64,
    pub lows: &'a [Aff],
    pub highs: &'a [Aff],
    pub step: u32,
}

/// Adds the head of a loop, behind its `for`.
pub fn put_head(
    alloc: Global,
    out: &mut List<Symbol>,
    letters: usize,
    head: &Head<'_>,
) -> Result<(), AllocError>
    ensures { OnOk result
        (out.new ≡ out.old
        ++ head_symbols letters head.now.level head.now.lows.now head.now.highs.now head.now.step) }
{
    put_beginning(alloc, out, letters, head.level, head.lows)?;
    put_limit(alloc, out, letters, head.level, head.highs)?;
    put_step(alloc, out, letters, head.level, head.step)
}
