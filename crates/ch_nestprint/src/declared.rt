ghost use Rattle.std.specs.Prelude.{◌≡◌, [], ◌∷◌, ◌++◌, OnOk, take, drop};
ghost use Rattle.std.specs.List.{flat_map};
ghost use Rattle.ch_nestprint.specs.Ends.{is_below};
ghost use Rattle.ch_nestprint.specs.Printed.{array_symbols, arrays_symbols};
ghost use Rattle.ch_nestprint.specs.Printed.{extent_symbols, fill_symbols};
ghost use Rattle.ch_nestprint.specs.Printed.{integer_symbols, let_symbols, lets_symbols};

use crate::named::put_minus_name;
use crate::symbol::{Symbol, key, mark, name, number};
use ch_affine::List;
use ch_lex::{Keyword, Sign};
use ch_nest::{ArrayDecl, Fill};
use std::alloc::{AllocError, Global};

fn put_let(
    alloc: Global,
    out: &mut List<Symbol>,
    letters: usize,
    size: u64,
) -> Result<(), AllocError>
    ensures { OnOk result (out.new ≡ out.old ++ let_symbols letters size) }
{
    key(out, Keyword::Let)?;
    put_minus_name(alloc, out, letters, size)?;
    mark(out, Sign::Equals)?;
    mark(out, Sign::Minus)?;
    number(out, size)?;
    mark(out, Sign::Semicolon)
}

/// Adds a let for each of these magnitudes, at the first place where it stands.
#[tactic(auto, using(crate::proofs::Further::next_let, crate::proofs::Further::no_let))]
pub fn put_lets(
    alloc: Global,
    out: &mut List<Symbol>,
    letters: usize,
    sizes: &[u64],
) -> Result<(), AllocError>
    ensures { OnOk result (out.new ≡ out.old ++ lets_symbols letters [] sizes.now) }
{
    for (i, size) in sizes.iter().enumerate() {
        if !sizes[..i].contains(size) {
            put_let(alloc, out, letters, *size)?;
        }
    }
    Ok(())
}

/// Adds a number, with a minus sign before it where it is negative.
fn put_integer(out: &mut List<Symbol>, value: i64) -> Result<(), AllocError>
    ensures { OnOk result (out.new ≡ out.old ++ integer_symbols value) }
{
    if value < 0 {
        mark(out, Sign::Minus)?;
        return number(out, value.unsigned_abs());
    }
    number(out, value.unsigned_abs())
}

fn put_extents(out: &mut List<Symbol>, extents: &[u32]) -> Result<(), AllocError>
    ensures { OnOk result (out.new ≡ out.old ++ flat_map extent_symbols extents.now) }
{
    for extent in extents {
        mark(out, Sign::LeftBracket)?;
        number(out, u64::from(*extent))?;
        mark(out, Sign::RightBracket)?;
    }
    Ok(())
}

fn put_fill(out: &mut List<Symbol>, fill: Fill) -> Result<(), AllocError>
    ensures { OnOk result (out.new ≡ out.old ++ fill_symbols fill) }
{
    mark(out, Sign::Equals)?;
    key(out, Keyword::Fill)?;
    mark(out, Sign::LeftParen)?;
    put_integer(out, fill.a)?;
    mark(out, Sign::Comma)?;
    put_integer(out, fill.b)?;
    mark(out, Sign::RightParen)?;
    mark(out, Sign::Semicolon)
}

fn put_array(
    alloc: Global,
    out: &mut List<Symbol>,
    array: &ArrayDecl,
    fill: Fill,
) -> Result<(), AllocError>
    ensures { OnOk result (out.new ≡ out.old ++ array_symbols array.now fill) }
{
    key(out, Keyword::Array)?;
    name(alloc, out, &array.name)?;
    put_extents(out, array.extents.as_slice())?;
    put_fill(out, fill)
}

/// Adds each array with its fill.
#[tactic(auto, using(crate::proofs::Further::next_array, crate::proofs::Further::no_array))]
pub fn put_arrays(
    alloc: Global,
    out: &mut List<Symbol>,
    arrays: &[ArrayDecl],
    fills: &[Fill],
) -> Result<(), AllocError>
    ensures { OnOk result (out.new ≡ out.old ++ arrays_symbols arrays.now fills.now) }
{
    for i in 0..arrays.len().min(fills.len()) {
        put_array(alloc, out, &arrays[i], fills[i])?;
    }
    Ok(())
}
