ghost use Rattle.std.specs.Prelude.{◌≡◌, ◌<◌, ◌++◌, true, length, OnOk};
ghost use Rattle.ch_code.specs.FormText.{constant_text, count_text, form_text, is_zero, sign_text, sum_text, term_text, times_text, variable_text};

use ch_affine::{Aff, Text};
use ch_print::{put_integer, put_number};
use std::alloc::AllocError;

/// What the name of the value of a loop around begins with.
pub(crate) const LOOPED: u8 = b'x';
/// What the name of an original iterator begins with.
pub(crate) const ORIGINAL: u8 = b'i';

/// Adds the name of the variable of this number, from 1 on.
pub(crate) fn put_variable(out: &mut Text, letter: u8, number: u64) -> Result<(), AllocError>
    requires { letter < 128 }
    ensures { OnOk result (out.new ≡ out.old ++ variable_text letter number) }
{
    out.push(letter)?;
    put_number(out, number)
}

fn is_zero(number: i64) -> bool
    ensures { result ≡ is_zero number }
{
    number == 0
}

fn put_sign(out: &mut Text, first: bool, number: i64) -> Result<(), AllocError>
    ensures { OnOk result (out.new ≡ out.old ++ sign_text first number) }
{
    match (first, number < 0) {
        (true, false) => Ok(()),
        (true, true) => out.append(b"-"),
        (false, false) => out.append(b" + "),
        (false, true) => out.append(b" - "),
    }
}

fn put_times(out: &mut Text, size: u64) -> Result<(), AllocError>
    ensures { OnOk result (out.new ≡ out.old ++ times_text size) }
{
    if size == 1 {
        return Ok(());
    }
    put_number(out, size)?;
    out.append(b"*")
}

/// Adds a coefficient with the variable of this number, but nothing where it is 0.
fn put_term(
    out: &mut Text,
    letter: u8,
    first: bool,
    number: u64,
    coef: i64,
) -> Result<(), AllocError>
    requires { letter < 128 }
    ensures { OnOk result (out.new ≡ out.old ++ term_text letter first number coef) }
{
    if is_zero(coef) {
        return Ok(());
    }
    put_sign(out, first, coef)?;
    put_times(out, coef.unsigned_abs())?;
    put_variable(out, letter, number)
}

fn put_constant(out: &mut Text, first: bool, constant: i64) -> Result<(), AllocError>
    ensures { OnOk result (out.new ≡ out.old ++ constant_text first constant) }
{
    if first {
        return put_integer(out, constant);
    }
    if is_zero(constant) {
        return Ok(());
    }
    put_sign(out, false, constant)?;
    put_number(out, constant.unsigned_abs())
}

#[tactic(auto, using(crate::proofs::Steps::sum_more))]
fn put_sum(out: &mut Text, letter: u8, coefs: &[i64], constant: i64) -> Result<(), AllocError>
    requires { letter < 128 }
    ensures { OnOk result (out.new ≡ out.old ++ sum_text letter true 1 coefs.now constant) }
{
    let mut first = true;
    for (k, coef) in coefs.iter().enumerate() {
        put_term(out, letter, first, k as u64 + 1, *coef)?;
        first = is_zero(*coef) && first;
    }
    put_constant(out, first, constant)
}

fn put_count(out: &mut Text, variables: usize, count: usize) -> Result<(), AllocError>
    ensures { OnOk result (out.new ≡ out.old ++ count_text variables count) }
{
    if count == variables {
        return Ok(());
    }
    out.append(b"of ")?;
    put_number(out, count as u64)?;
    out.append(b": ")
}

/// Adds a form of this many variables, whose names begin with this letter.
#[tactic(auto, unfolding(crate::specs::FormText::form_text))]
pub(crate) fn put_form(
    out: &mut Text,
    letter: u8,
    variables: usize,
    form: &Aff,
) -> Result<(), AllocError>
    requires { letter < 128 }
    ensures { OnOk result (out.new ≡ out.old ++ form_text letter variables form.now) }
{
    put_count(out, variables, form.coefs.len())?;
    put_sum(out, letter, form.coefs.as_slice(), form.constant)
}
