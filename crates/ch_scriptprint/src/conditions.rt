//! Conditions: sums of terms, and a relation between two of them.
ghost use Rattle.std.specs.Prelude.{◌≡◌, [], ◌++◌, IsTrue, OnOk};
ghost use Rattle.std.specs.List.{flat_map, list_all};
ghost use Rattle.std.specs.Char.{is_ascii};
ghost use Rattle.ch_scriptprint.specs.Printed.{condition_text, factor_if, factor_text};
ghost use Rattle.ch_scriptprint.specs.Printed.{first_sign, first_text, level_text, next_sign};
ghost use Rattle.ch_scriptprint.specs.Printed.{next_text, part_text, relation_text, sum_text};

use crate::arguments::put_param;
use ch_affine::Text;
use ch_print::put_number;
use ch_script::{Cond, Of, Relation, Term};
use std::alloc::AllocError;

/// Adds a factor in front of a name.
fn put_factor(out: &mut Text, factor: u32) -> Result<(), AllocError>
    ensures { OnOk result (out.new ≡ out.old ++ factor_text factor) }
{
    if factor == 1 {
        return Ok(());
    }
    put_number(out, u64::from(factor))?;
    out.append(b"*")
}

fn put_level_name(out: &mut Text, level: u32) -> Result<(), AllocError>
    ensures { OnOk result (out.new ≡ out.old ++ level_text level) }
{
    out.append(b"L")?;
    put_number(out, u64::from(level))
}

fn put_level(out: &mut Text, factor: u32, level: u32) -> Result<(), AllocError>
    ensures { OnOk result (out.new ≡ out.old ++ part_text [] factor (Of.Level level)) }
{
    put_factor(out, factor)?;
    put_level_name(out, level)
}

fn put_times(out: &mut Text, params: &[Text], factor: u32, param: u32) -> Result<(), AllocError>
    ensures { OnOk result (out.new ≡ out.old ++ part_text params.now factor (Of.Param param)) }
{
    put_factor(out, factor)?;
    put_param(out, params, param)
}

/// Adds a term without its sign.
fn put_part(out: &mut Text, params: &[Text], factor: u32, of: Of) -> Result<(), AllocError>
    ensures { OnOk result (out.new ≡ out.old ++ part_text params.now factor of) }
{
    match of {
        Of::One => put_number(out, u64::from(factor)),
        Of::Level(level) => put_level(out, factor, level),
        Of::Param(param) => put_times(out, params, factor, param),
    }
}

fn put_first_sign(out: &mut Text, negative: bool) -> Result<(), AllocError>
    ensures { OnOk result (out.new ≡ out.old ++ first_sign negative) }
{
    if negative { out.append(b"-") } else { Ok(()) }
}

fn next_sign(negative: bool) -> &'static [u8]
    ensures value { result.now ≡ next_sign negative }
    ensures ascii { IsTrue (list_all is_ascii result.now) }
{
    if negative { b" - " } else { b" + " }
}

/// Adds the terms behind the first.
fn put_more(out: &mut Text, params: &[Text], terms: &[Term]) -> Result<(), AllocError>
    ensures { OnOk result (out.new ≡ out.old ++ flat_map (next_text params.now) terms.now) }
{
    for term in terms {
        out.append(next_sign(term.negative))?;
        put_part(out, params, term.factor, term.of)?;
    }
    Ok(())
}

fn put_sum(out: &mut Text, params: &[Text], terms: &[Term]) -> Result<(), AllocError>
    ensures { OnOk result (out.new ≡ out.old ++ sum_text params.now terms.now) }
{
    let Some((first, rest)) = terms.split_first() else {
        return Ok(());
    };
    put_first_sign(out, first.negative)?;
    put_part(out, params, first.factor, first.of)?;
    put_more(out, params, rest)
}

fn relation_text(relation: Relation) -> &'static [u8]
    ensures value { result.now ≡ relation_text relation }
    ensures ascii { IsTrue (list_all is_ascii result.now) }
{
    match relation {
        Relation::Less => b" < ",
        Relation::AtMost => b" <= ",
        Relation::More => b" > ",
        Relation::AtLeast => b" >= ",
    }
}

/// Adds a condition.
pub(crate) fn put_condition(
    out: &mut Text,
    params: &[Text],
    condition: &Cond,
) -> Result<(), AllocError>
    ensures { OnOk result (out.new ≡ out.old ++ condition_text params.now condition.now) }
{
    put_sum(out, params, condition.left.as_slice())?;
    out.append(relation_text(condition.relation))?;
    put_sum(out, params, condition.right.as_slice())
}
