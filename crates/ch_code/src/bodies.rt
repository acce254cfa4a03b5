ghost use Rattle.std.specs.Prelude.{◌≡◌, ◌++◌, OnOk};
ghost use Rattle.std.specs.List.{flat_map};
ghost use Rattle.ch_code.specs.BodyText.{access_text, body_text, closing, encloses_number, encloses_product, encloses_sum, expr_text, modular_text, opening, operand_text, sub_text, subs_text};
ghost use Rattle.ch_code.specs.FormText.{form_text, original};

use crate::forms::{ORIGINAL, put_form, put_variable};
use crate::names::{Names, put_array};
use ch_affine::Text;
use ch_nest::{Access, Body, Expr, Sub};
use ch_print::{put_integer, put_number};
use std::alloc::AllocError;

fn put_modular(out: &mut Text, iterators: usize, sub: &Sub) -> Result<(), AllocError>
    ensures { OnOk result
        (out.new
        ≡ out.old ++ modular_text (form_text original iterators sub.now.form) sub.now.modulus) }
{
    if sub.modulus == 0 {
        return put_form(out, ORIGINAL, iterators, &sub.form);
    }
    out.append(b"(")?;
    put_form(out, ORIGINAL, iterators, &sub.form)?;
    out.append(b") mod ")?;
    put_number(out, u64::from(sub.modulus))
}

#[tactic(auto, unfolding(crate::specs::BodyText::sub_text))]
fn put_sub(out: &mut Text, iterators: usize, sub: &Sub) -> Result<(), AllocError>
    ensures { OnOk result (out.new ≡ out.old ++ sub_text iterators sub.now) }
{
    out.append(b"[")?;
    put_modular(out, iterators, sub)?;
    out.append(b"]")
}

fn put_subs(out: &mut Text, iterators: usize, subs: &[Sub]) -> Result<(), AllocError>
    ensures { OnOk result (out.new ≡ out.old ++ flat_map (sub_text iterators) subs.now) }
{
    for sub in subs {
        put_sub(out, iterators, sub)?;
    }
    Ok(())
}

fn put_all_subs(out: &mut Text, iterators: usize, subs: &[Sub]) -> Result<(), AllocError>
    ensures { OnOk result (out.new ≡ out.old ++ subs_text iterators subs.now) }
{
    match subs {
        [] => out.append(b"[]"),
        _ => put_subs(out, iterators, subs),
    }
}

#[tactic(auto, unfolding(crate::specs::BodyText::access_text))]
fn put_access(
    out: &mut Text,
    names: &Names,
    iterators: usize,
    access: &Access,
) -> Result<(), AllocError>
    ensures { OnOk result (out.new ≡ out.old ++ access_text names.now iterators access.now) }
{
    put_array(out, names, access.array as usize)?;
    put_all_subs(out, iterators, access.subs.as_slice())
}

/// Where in a text a right side stands: where a sum may stand, where a product may, where neither
/// may, or behind a minus sign, where no number may either whose digits it would belong to.
#[derive(Clone, Copy, Debug)]
pub enum Standing {
    Sum,
    Product,
    Operand,
    Negated,
}

fn encloses_number(standing: Standing, number: i64) -> bool
    ensures { result ≡ encloses_number standing number }
{
    match standing {
        Standing::Negated => number >= 0,
        Standing::Sum | Standing::Product | Standing::Operand => false,
    }
}

fn encloses_sum(standing: Standing) -> bool
    ensures { result ≡ encloses_sum standing }
{
    !matches!(standing, Standing::Sum)
}

fn encloses_product(standing: Standing) -> bool
    ensures { result ≡ encloses_product standing }
{
    matches!(standing, Standing::Operand | Standing::Negated)
}

fn put_opening(out: &mut Text, encloses: bool) -> Result<(), AllocError>
    ensures { OnOk result (out.new ≡ out.old ++ opening encloses) }
{
    if encloses { out.append(b"(") } else { Ok(()) }
}

fn put_closing(out: &mut Text, encloses: bool) -> Result<(), AllocError>
    ensures { OnOk result (out.new ≡ out.old ++ closing encloses) }
{
    if encloses { out.append(b")") } else { Ok(()) }
}

/// Adds a number of a right side, between parentheses where they are needed.
fn put_operand(out: &mut Text, encloses: bool, number: i64) -> Result<(), AllocError>
    ensures { OnOk result (out.new ≡ out.old ++ operand_text encloses number) }
{
    put_opening(out, encloses)?;
    put_integer(out, number)?;
    put_closing(out, encloses)
}

/// Adds a right side over this many original iterators, where it stands so.
#[tactic(auto, using(crate::proofs::Rolls::number_is, crate::proofs::Rolls::iter_is, crate::proofs::Rolls::read_is, crate::proofs::Rolls::neg_is, crate::proofs::Rolls::add_is, crate::proofs::Rolls::sub_is, crate::proofs::Rolls::mul_is))]
pub(crate) fn put_expr(
    out: &mut Text,
    names: &Names,
    iterators: usize,
    expr: &Expr,
    standing: Standing,
) -> Result<(), AllocError>
    ensures { OnOk result
        (out.new ≡ out.old ++ expr_text names.now iterators expr.now standing) }
{
    match expr {
        Expr::Number(number) => put_operand(out, encloses_number(standing, *number), *number),
        Expr::Iter(level) => put_variable(out, ORIGINAL, u64::from(*level) + 1),
        Expr::Read(access) => put_access(out, names, iterators, access),
        Expr::Neg(x) => {
            out.append(b"-")?;
            put_expr(out, names, iterators, x.get(), Standing::Negated)
        }
        Expr::Add(x, y) => {
            let encloses = encloses_sum(standing);
            put_opening(out, encloses)?;
            put_expr(out, names, iterators, x.get(), Standing::Sum)?;
            out.append(b" + ")?;
            put_expr(out, names, iterators, y.get(), Standing::Product)?;
            put_closing(out, encloses)
        }
        Expr::Sub(x, y) => {
            let encloses = encloses_sum(standing);
            put_opening(out, encloses)?;
            put_expr(out, names, iterators, x.get(), Standing::Sum)?;
            out.append(b" - ")?;
            put_expr(out, names, iterators, y.get(), Standing::Product)?;
            put_closing(out, encloses)
        }
        Expr::Mul(x, y) => {
            let encloses = encloses_product(standing);
            put_opening(out, encloses)?;
            put_expr(out, names, iterators, x.get(), Standing::Product)?;
            out.append(b" * ")?;
            put_expr(out, names, iterators, y.get(), Standing::Operand)?;
            put_closing(out, encloses)
        }
    }
}

/// Adds an assignment over this many original iterators.
#[tactic(auto, unfolding(crate::specs::BodyText::body_text))]
pub(crate) fn put_body(
    out: &mut Text,
    names: &Names,
    iterators: usize,
    body: &Body,
) -> Result<(), AllocError>
    ensures { OnOk result (out.new ≡ out.old ++ body_text names.now iterators body.now) }
{
    put_access(out, names, iterators, &body.write)?;
    out.append(b" = ")?;
    put_expr(out, names, iterators, &body.right, Standing::Sum)
}
