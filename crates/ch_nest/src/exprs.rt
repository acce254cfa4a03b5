ghost use Rattle.std.specs.Prelude.{◌≡◌, ◌<◌, ◌≤◌, ◌&&◌, min};
ghost use Rattle.std.specs.List.{list_all};
ghost use Rattle.ch_nest.specs.Shape.{access_fits, body_fits, expr_fits};
ghost use Rattle.ch_nest.specs.Shape.{has_dimensions, inside, is_at_most, is_operand};
ghost use Rattle.ch_nest.specs.Shape.{is_term, nested, operands, parts_fit, sub_fits};

use crate::forms::{form_fits, is_at_most};
use crate::limits::{MOST_NESTING, MOST_NUMBER, MOST_OPERANDS};
use crate::nest::{Access, ArrayDecl, Body, Expr, Sub};

/// Where in a text a right side stands: where a sum may stand, where a product may, or where
/// neither may.
#[derive(Clone, Copy, Debug)]
pub enum Standing {
    Term,
    Factor,
    Operand,
}

fn sub_fits(depth: usize, sub: &Sub) -> bool
    ensures { result ≡ sub_fits depth sub.now }
{
    form_fits(depth, &sub.form) && sub.modulus == 0
}

fn all_subs_fit(depth: usize, subs: &[Sub]) -> bool
    ensures { result ≡ list_all (sub_fits depth) subs.now }
{
    subs.iter().all(|s| sub_fits(depth, s))
}

fn has_dimensions(arrays: &[ArrayDecl], k: u32, n: usize) -> bool
    ensures { result ≡ has_dimensions arrays.now k n }
{
    match arrays.get(k as usize) {
        Some(d) => d.extents.len() == n,
        None => false,
    }
}

fn access_fits(arrays: &[ArrayDecl], depth: usize, access: &Access) -> bool
    ensures { result ≡ access_fits arrays.now depth access.now }
{
    has_dimensions(arrays, access.array, access.subs.len())
        && all_subs_fit(depth, access.subs.as_slice())
}

fn parts_fit(arrays: &[ArrayDecl], depth: usize, expr: &Expr) -> bool
    ensures { result ≡ parts_fit arrays.now depth expr.now }
{
    match expr {
        Expr::Number(n) => is_at_most(MOST_NUMBER, *n),
        Expr::Iter(k) => (*k as usize) < depth,
        Expr::Read(access) => access_fits(arrays, depth, access),
        Expr::Neg(x) => parts_fit(arrays, depth, x.get()),
        Expr::Add(x, y) | Expr::Sub(x, y) | Expr::Mul(x, y) => {
            parts_fit(arrays, depth, x.get()) && parts_fit(arrays, depth, y.get())
        }
    }
}

/// The operands of a right side, counted up to one past their limit.
fn operands(expr: &Expr) -> u32
    ensures { result ≡ min (operands expr.now) 257 }
{
    match expr {
        Expr::Number(_) | Expr::Iter(_) | Expr::Read(_) => 1,
        Expr::Neg(x) => operands(x.get()),
        Expr::Add(x, y) | Expr::Sub(x, y) | Expr::Mul(x, y) => {
            let left = operands(x.get());
            let right = operands(y.get());
            (left + right).min(MOST_OPERANDS + 1)
        }
    }
}

fn is_term(standing: Standing) -> bool
    ensures { result ≡ is_term standing }
{
    matches!(standing, Standing::Term)
}

fn is_operand(standing: Standing) -> bool
    ensures { result ≡ is_operand standing }
{
    matches!(standing, Standing::Operand)
}

/// How many parentheses may still open, where one opens here or none does.
fn inside(opens: bool, left: u32) -> Option<u32>
    ensures { result ≡ inside opens left }
{
    if !opens {
        Some(left)
    } else if left == 0 {
        None
    } else {
        Some(left - 1)
    }
}

/// Whether at most `left` parentheses and minus signs stand around one another in a right side.
fn nested(expr: &Expr, standing: Standing, left: u32) -> bool
    ensures { result ≡ nested expr.now standing left }
{
    match expr {
        Expr::Number(_) | Expr::Iter(_) | Expr::Read(_) => true,
        Expr::Neg(x) => match inside(true, left) {
            None => false,
            Some(l) => nested(x.get(), Standing::Operand, l),
        },
        Expr::Add(x, y) | Expr::Sub(x, y) => match inside(!is_term(standing), left) {
            None => false,
            Some(l) => nested(x.get(), Standing::Term, l) && nested(y.get(), Standing::Factor, l),
        },
        Expr::Mul(x, y) => match inside(is_operand(standing), left) {
            None => false,
            Some(l) => nested(x.get(), Standing::Factor, l)
                && nested(y.get(), Standing::Operand, l),
        },
    }
}

fn expr_fits(arrays: &[ArrayDecl], depth: usize, expr: &Expr) -> bool
    ensures { result ≡ expr_fits arrays.now depth expr.now }
{
    if !parts_fit(arrays, depth, expr) {
        return false;
    }
    operands(expr) <= MOST_OPERANDS && nested(expr, Standing::Term, MOST_NESTING)
}

pub(crate) fn body_fits(arrays: &[ArrayDecl], depth: usize, body: &Body) -> bool
    ensures { result ≡ body_fits arrays.now depth body.now }
{
    access_fits(arrays, depth, &body.write) && expr_fits(arrays, depth, &body.right)
}
