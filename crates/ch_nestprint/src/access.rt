ghost use Rattle.std.specs.Prelude.{◌≡◌, [], ◌∷◌, ◌++◌, OnOk};
ghost use Rattle.std.specs.List.{flat_map};
ghost use Rattle.ch_nestprint.specs.Sides.{access_symbols, sub_symbols};

use crate::forms::put_form;
use crate::named::put_array_name;
use crate::symbol::{Symbol, mark};
use ch_affine::List;
use ch_lex::Sign;
use ch_nest::{Access, ArrayDecl, Sub};
use std::alloc::{AllocError, Global};

fn put_sub(
    alloc: Global,
    out: &mut List<Symbol>,
    letters: usize,
    sub: &Sub,
) -> Result<(), AllocError>
    ensures { OnOk result (out.new ≡ out.old ++ sub_symbols letters sub.now) }
{
    mark(out, Sign::LeftBracket)?;
    put_form(
        alloc,
        out,
        letters,
        sub.form.coefs.as_slice(),
        sub.form.constant,
    )?;
    mark(out, Sign::RightBracket)
}

/// Adds an access: the name of its array, and each subscript in brackets.
pub fn put_access(
    alloc: Global,
    out: &mut List<Symbol>,
    arrays: &[ArrayDecl],
    letters: usize,
    access: &Access,
) -> Result<(), AllocError>
    ensures { OnOk result (out.new ≡ out.old ++ access_symbols arrays.now letters access.now) }
{
    put_array_name(alloc, out, arrays, access.array)?;
    for sub in access.subs.as_slice() {
        put_sub(alloc, out, letters, sub)?;
    }
    Ok(())
}
