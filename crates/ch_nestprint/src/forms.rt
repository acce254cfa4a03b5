ghost use Rattle.std.specs.Prelude.{◌≡◌, ◌<◌, ◌≤◌, ◌^◌, ◌+◌, ◌&&◌, []};
ghost use Rattle.std.specs.Prelude.{◌∷◌, ◌++◌, IfOk, OnOk, length};
ghost use Rattle.ch_nestprint.specs.Ends.{coef_if, coef_symbols, constant_if};
ghost use Rattle.ch_nestprint.specs.Ends.{constant_symbols, form_symbols, is_below, is_none};
ghost use Rattle.ch_nestprint.specs.Ends.{lead, terms_symbols, times_if, times_symbols};

use crate::named::put_iterator;
use crate::symbol::{Symbol, mark, number};
use ch_affine::List;
use ch_lex::Sign;
use std::alloc::{AllocError, Global};

fn is_below(z: i64) -> bool
    ensures { result ≡ is_below z }
{
    z < 0
}

fn is_none(z: i64) -> bool
    ensures { result ≡ is_none z }
{
    z.unsigned_abs() == 0
}

/// Adds what stands before the magnitude of a term.
fn put_lead(out: &mut List<Symbol>, first: bool, below: bool) -> Result<(), AllocError>
    ensures { OnOk result (out.new ≡ out.old ++ lead first below) }
{
    match (first, below) {
        (true, true) => {
            number(out, 0)?;
            mark(out, Sign::Minus)
        }
        (true, false) => Ok(()),
        (false, true) => mark(out, Sign::Minus),
        (false, false) => mark(out, Sign::Plus),
    }
}

fn put_times(
    alloc: Global,
    out: &mut List<Symbol>,
    letters: usize,
    size: u64,
    level: u64,
) -> Result<(), AllocError>
    ensures { OnOk result (out.new ≡ out.old ++ times_symbols letters size level) }
{
    if size == 1 {
        return put_iterator(alloc, out, letters, level);
    }
    number(out, size)?;
    mark(out, Sign::Star)?;
    put_iterator(alloc, out, letters, level)
}

fn put_coef(
    alloc: Global,
    out: &mut List<Symbol>,
    letters: usize,
    first: bool,
    coef: i64,
    level: u64,
) -> Result<(), AllocError>
    ensures { OnOk result (out.new ≡ out.old ++ coef_symbols letters first coef level) }
{
    if is_none(coef) {
        return Ok(());
    }
    put_lead(out, first, is_below(coef))?;
    put_times(alloc, out, letters, coef.unsigned_abs(), level)
}

fn put_constant(out: &mut List<Symbol>, first: bool, constant: i64) -> Result<(), AllocError>
    ensures { OnOk result (out.new ≡ out.old ++ constant_symbols first constant) }
{
    if !first && is_none(constant) {
        return Ok(());
    }
    put_lead(out, first, is_below(constant))?;
    number(out, constant.unsigned_abs())
}

/// Adds the form with these coefficients and this constant.
#[tactic(auto, using(crate::proofs::Further::next_coef))]
pub fn put_form(
    alloc: Global,
    out: &mut List<Symbol>,
    letters: usize,
    coefs: &[i64],
    constant: i64,
) -> Result<(), AllocError>
    ensures { OnOk result (out.new ≡ out.old ++ form_symbols letters coefs.now constant) }
{
    let mut first = true;
    for (level, coef) in coefs.iter().enumerate() {
        put_coef(alloc, out, letters, first, *coef, level as u64)?;
        first = first && is_none(*coef);
    }
    put_constant(out, first, constant)
}
