//! The line of a session.
ghost use Rattle.std.specs.Prelude.{◌≡◌, [], ◌++◌, Err, Ok, OnOk};
ghost use Rattle.ch_check.specs.Checked.{front_text, legal_text, line_text};

use ch_affine::Text;
use ch_judge::Told;
use ch_nest::ArrayDecl;
use ch_print::put_number;
use ch_report::{put_refusal, put_values};
use ch_script::Refusal;
use std::alloc::AllocError;

#[tactic(auto, unfolding(crate::specs::Checked::legal_text))]
fn put_told(out: &mut Text, told: Told) -> Result<(), AllocError>
    ensures { OnOk result (out.new ≡ out.old ++ legal_text told) }
{
    out.append(b"legal pieces ")?;
    put_number(out, u64::from(told.pieces))?;
    out.append(b" instances ")?;
    put_number(out, told.instances)?;
    out.append(b" cost ")?;
    put_number(out, told.cost)
}

#[tactic(auto, unfolding(crate::specs::Checked::front_text))]
fn put_front(out: &mut Text, name: &Text, values: &[i64]) -> Result<(), AllocError>
    ensures { OnOk result (out.new ≡ out.old ++ front_text name.now values.now) }
{
    out.append(b"session ")?;
    out.append(name.as_bytes())?;
    out.append(b" at ")?;
    put_values(out, values)?;
    out.append(b" ")
}

/// Adds the line of a session whose recipe is legal at these values of its parameters, with what is
/// told of it.
pub(crate) fn put_legal(
    out: &mut Text,
    name: &Text,
    values: &[i64],
    told: Told,
) -> Result<(), AllocError>
    ensures { OnOk result (out.new ≡ out.old ++ line_text name.now values.now [] (Ok told)) }
{
    put_front(out, name, values)?;
    put_told(out, told)?;
    out.append(b"\n")
}

/// Adds the line of a session whose recipe is refused at these values of its parameters, of a
/// program with these arrays.
pub(crate) fn put_refused(
    out: &mut Text,
    name: &Text,
    values: &[i64],
    arrays: &[ArrayDecl],
    refusal: &Refusal,
) -> Result<(), AllocError>
    ensures { OnOk result (out.new
        ≡ out.old ++ line_text name.now values.now arrays.now (Err refusal.now)) }
{
    put_front(out, name, values)?;
    put_refusal(out, arrays, refusal)?;
    out.append(b"\n")
}
