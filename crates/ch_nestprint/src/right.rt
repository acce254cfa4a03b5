ghost use Rattle.std.specs.Prelude.{◌≡◌, [], ◌∷◌, ◌++◌, OnOk, not, unsigned_abs};
ghost use Rattle.ch_nest.specs.Shape.{is_operand, is_term};
ghost use Rattle.ch_nestprint.specs.Ends.{is_below};
ghost use Rattle.ch_nestprint.specs.Sides.{closing, constant_symbol};
ghost use Rattle.ch_nestprint.specs.Sides.{joined_symbols, opening, right_symbols};

use crate::access::put_access;
use crate::named::{put_iterator, put_minus_name};
use crate::symbol::{Symbol, mark, number};
use ch_affine::List;
use ch_lex::Sign;
use ch_nest::{ArrayDecl, Expr, Standing};
use std::alloc::{AllocError, Global};

fn put_opening(out: &mut List<Symbol>, parens: bool) -> Result<(), AllocError>
    ensures { OnOk result (out.new ≡ out.old ++ opening parens) }
{
    if parens {
        return mark(out, Sign::LeftParen);
    }
    Ok(())
}

fn put_closing(out: &mut List<Symbol>, parens: bool) -> Result<(), AllocError>
    ensures { OnOk result (out.new ≡ out.old ++ closing parens) }
{
    if parens {
        return mark(out, Sign::RightParen);
    }
    Ok(())
}

/// Adds a number of a right side; a negative one by its name.
fn put_number_operand(
    alloc: Global,
    out: &mut List<Symbol>,
    letters: usize,
    value: i64,
) -> Result<(), AllocError>
    ensures { OnOk result (out.new
        ≡ out.old ++ constant_symbol (is_below value) letters (unsigned_abs value) ∷ []) }
{
    if value < 0 {
        return put_minus_name(alloc, out, letters, value.unsigned_abs());
    }
    number(out, value.unsigned_abs())
}

fn is_term(standing: Standing) -> bool
    ensures { result ≡ is_term standing }
{
    matches!(standing, Standing::Term)
}

fn is_operand(standing: Standing) -> bool
    ensures { result ≡ is_operand standing }
{
    matches!(standing, Standing::Operand)
}

/// Adds a right side with the fewest parentheses, where it stands so.
pub fn put_right(
    alloc: Global,
    out: &mut List<Symbol>,
    arrays: &[ArrayDecl],
    letters: usize,
    expr: &Expr,
    standing: Standing,
) -> Result<(), AllocError>
    ensures { OnOk result (out.new
        ≡ out.old ++ right_symbols arrays.now letters expr.now standing) }
{
    match expr {
        Expr::Number(n) => put_number_operand(alloc, out, letters, *n),
        Expr::Iter(k) => put_iterator(alloc, out, letters, u64::from(*k)),
        Expr::Read(access) => put_access(alloc, out, arrays, letters, access),
        Expr::Neg(x) => {
            mark(out, Sign::Minus)?;
            put_right(alloc, out, arrays, letters, x.get(), Standing::Operand)
        }
        Expr::Add(x, y) => {
            let parens = !is_term(standing);
            put_opening(out, parens)?;
            put_right(alloc, out, arrays, letters, x.get(), Standing::Term)?;
            mark(out, Sign::Plus)?;
            put_right(alloc, out, arrays, letters, y.get(), Standing::Factor)?;
            put_closing(out, parens)
        }
        Expr::Sub(x, y) => {
            let parens = !is_term(standing);
            put_opening(out, parens)?;
            put_right(alloc, out, arrays, letters, x.get(), Standing::Term)?;
            mark(out, Sign::Minus)?;
            put_right(alloc, out, arrays, letters, y.get(), Standing::Factor)?;
            put_closing(out, parens)
        }
        Expr::Mul(x, y) => {
            let parens = is_operand(standing);
            put_opening(out, parens)?;
            put_right(alloc, out, arrays, letters, x.get(), Standing::Factor)?;
            mark(out, Sign::Star)?;
            put_right(alloc, out, arrays, letters, y.get(), Standing::Operand)?;
            put_closing(out, parens)
        }
    }
}
