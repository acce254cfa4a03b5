ghost use Rattle.std.specs.Prelude.{◌≡◌, ◌++◌, OnOk, codes};
ghost use Rattle.std.specs.List.{flat_map};
ghost use Rattle.ch_print.specs.Instances.{buffer_text, cell_text, identity_text};
ghost use Rattle.ch_print.specs.Instances.{label_text, subscript_text};
ghost use Rattle.ch_print.specs.Lists.{behind, separated};
ghost use Rattle.ch_print.specs.Numbers.{integer_text};

use crate::numbers::{put_integer, put_number};
use ch_affine::Text;
use ch_timed::{Identity, Label};
use std::alloc::AllocError;

/// Adds a statement's label as `S0`, a move's as `M0`.
pub fn put_label(out: &mut Text, label: Label) -> Result<(), AllocError>
    ensures { OnOk result (out.new ≡ out.old ++ label_text label) }
{
    match label {
        Label::Stmt(number) => put_statement(out, number),
        Label::Move(number) => put_move(out, number),
    }
}

fn put_statement(out: &mut Text, number: u32) -> Result<(), AllocError>
    ensures { OnOk result (out.new ≡ out.old ++ label_text (Label.Stmt number)) }
{
    out.append(b"S")?;
    put_number(out, u64::from(number))
}

fn put_move(out: &mut Text, number: u32) -> Result<(), AllocError>
    ensures { OnOk result (out.new ≡ out.old ++ label_text (Label.Move number)) }
{
    out.append(b"M")?;
    put_number(out, u64::from(number))
}

/// Adds numbers with commas between them.
pub fn put_integers(out: &mut Text, numbers: &[i64]) -> Result<(), AllocError>
    ensures { OnOk result (out.new ≡ out.old ++ separated (codes ",") integer_text numbers.now) }
{
    let Some((first, rest)) = numbers.split_first() else {
        return Ok(());
    };
    put_integer(out, *first)?;
    put_more_integers(out, rest)
}

fn put_more_integers(out: &mut Text, numbers: &[i64]) -> Result<(), AllocError>
    ensures { OnOk result (out.new
        ≡ out.old ++ flat_map (behind (codes ",") integer_text) numbers.now) }
{
    for number in numbers {
        out.append(b",")?;
        put_integer(out, *number)?;
    }
    Ok(())
}

/// Adds a statement instance, as `S0(1,2)`.
#[tactic(auto, unfolding(crate::specs::Instances::identity_text))]
pub fn put_identity(out: &mut Text, identity: &Identity) -> Result<(), AllocError>
    ensures { OnOk result (out.new ≡ out.old ++ identity_text identity.now) }
{
    put_label(out, identity.label)?;
    out.append(b"(")?;
    put_integers(out, identity.iters.as_slice())?;
    out.append(b")")
}

/// Adds the subscripts of a cell, as `[1][2]`.
pub fn put_subscripts(out: &mut Text, subscripts: &[i64]) -> Result<(), AllocError>
    ensures { OnOk result (out.new ≡ out.old ++ flat_map subscript_text subscripts.now) }
{
    for number in subscripts {
        out.append(b"[")?;
        put_integer(out, *number)?;
        out.append(b"]")?;
    }
    Ok(())
}

/// Adds a cell, as `A[1][2]`, whose array has this name.
#[tactic(auto, unfolding(crate::specs::Instances::cell_text))]
pub fn put_cell(out: &mut Text, name: &Text, subscripts: &[i64]) -> Result<(), AllocError>
    ensures { OnOk result (out.new ≡ out.old ++ cell_text name.now subscripts.now) }
{
    out.append(name.as_bytes())?;
    put_subscripts(out, subscripts)
}

/// Adds a buffer's name, as `T:0`.
pub fn put_buffer(out: &mut Text, number: u64) -> Result<(), AllocError>
    ensures { OnOk result (out.new ≡ out.old ++ buffer_text number) }
{
    out.append(b"T:")?;
    put_number(out, number)
}
