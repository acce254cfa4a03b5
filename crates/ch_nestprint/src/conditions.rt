ghost use Rattle.std.specs.Prelude.{◌≡◌, [], ◌∷◌, ◌++◌, codes, map, neg_ℤ, IfOk, OnOk};
ghost use Rattle.ch_nestprint.specs.Conditions.{comparison, condition_symbols, far};
ghost use Rattle.ch_nestprint.specs.Conditions.{is_low, left_symbols, moved, near};
ghost use Rattle.ch_nestprint.specs.Conditions.{right_symbols, sides_symbols};

use crate::forms::put_form;
use crate::limits::{MOST_AFFINE, MOST_NUMBER};
use crate::symbol::{Symbol, mark};
use ch_affine::{Aff, List, Text};
use ch_lex::Sign;
use std::alloc::{AllocError, Global};

/// The number of affine text that is nearest.
fn near(z: i64) -> i64
    ensures { result ≡ near z }
{
    (-MOST_AFFINE).max(MOST_AFFINE.min(z))
}

/// What a number has beyond affine text.
fn far(z: i64) -> i64
    ensures { result ≡ far z }
{
    z - near(z)
}

/// What a number has beyond affine text, as it stands on the other side.
fn moved(z: i64) -> i64
    ensures { result ≡ moved z }
{
    near(z) - z
}

fn less_near(z: i64) -> i64
    ensures { result ≡ neg_ℤ (near z) }
{
    -near(z)
}

fn each_near(alloc: Global, numbers: &[i64]) -> Result<List<i64>, AllocError>
    ensures { IfOk result (λ all. all ≡ map near numbers.now) }
{
    let mut all = List::new(alloc);
    for number in numbers {
        all.push(near(*number))?;
    }
    Ok(all)
}

fn each_moved(alloc: Global, numbers: &[i64]) -> Result<List<i64>, AllocError>
    ensures { IfOk result (λ all. all ≡ map moved numbers.now) }
{
    let mut all = List::new(alloc);
    for number in numbers {
        all.push(moved(*number))?;
    }
    Ok(all)
}

/// Whether the constant is below that of each difference of two sides.
fn is_low(row: &Aff) -> bool
    ensures { result ≡ is_low row.now }
{
    row.constant < -MOST_NUMBER
}

fn comparison(low: bool) -> Sign
    ensures { result ≡ comparison low }
{
    if low { Sign::More } else { Sign::AtLeast }
}

fn put_left(
    alloc: Global,
    out: &mut List<Symbol>,
    letters: usize,
    coefs: &[i64],
    constant: i64,
) -> Result<(), AllocError>
    ensures { OnOk result (out.new ≡ out.old ++ left_symbols letters coefs.now constant) }
{
    let coefs = each_near(alloc, coefs)?;
    put_form(alloc, out, letters, coefs.as_slice(), far(constant))
}

fn put_right(
    alloc: Global,
    out: &mut List<Symbol>,
    letters: usize,
    coefs: &[i64],
    constant: i64,
) -> Result<(), AllocError>
    ensures { OnOk result (out.new ≡ out.old ++ right_symbols letters coefs.now constant) }
{
    let coefs = each_moved(alloc, coefs)?;
    put_form(alloc, out, letters, coefs.as_slice(), less_near(constant))
}

/// Adds the two sides of the condition whose row has these coefficients and this constant.
fn put_sides(
    alloc: Global,
    out: &mut List<Symbol>,
    letters: usize,
    low: bool,
    coefs: &[i64],
    constant: i64,
) -> Result<(), AllocError>
    ensures { OnOk result (out.new ≡ out.old ++ sides_symbols letters low coefs.now constant) }
{
    put_left(alloc, out, letters, coefs, constant)?;
    mark(out, comparison(low))?;
    put_right(alloc, out, letters, coefs, constant)
}

/// Adds the condition of this row, behind its `if`.
pub fn put_condition(
    alloc: Global,
    out: &mut List<Symbol>,
    letters: usize,
    row: &Aff,
) -> Result<(), AllocError>
    ensures { OnOk result (out.new ≡ out.old ++ condition_symbols letters row.now) }
{
    let low = is_low(row);
    let constant = if low { row.constant + 1 } else { row.constant };
    mark(out, Sign::LeftParen)?;
    put_sides(alloc, out, letters, low, row.coefs.as_slice(), constant)?;
    mark(out, Sign::RightParen)
}

/// Adds the word `if`, which is no keyword.
pub fn put_if(alloc: Global, out: &mut List<Symbol>) -> Result<(), AllocError>
    ensures { OnOk result (out.new ≡ out.old ++ Symbol.Name (codes "if") ∷ []) }
{
    let text = Text::of(alloc, b"if")?;
    out.push(Symbol::Name(text))
}
