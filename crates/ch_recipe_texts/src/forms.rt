//! The forms of a recipe's conditions: of each `require` over the parameters, and of each split's
//! over the loop values, where the first parameter is 1, the second 2 and so on.
ghost use Rattle.std.specs.Prelude.{IsTrue};
ghost use Rattle.std.specs.List.{list_all};
ghost use Rattle.std.specs.Char.{is_ascii};

use ch_affine::{Aff, Text};
use ch_print::put_integer;
use ch_script::{Command, Recipe, condition_of, requirement_of};
use std::alloc::{AllocError, Global};

fn put_form(out: &mut Text, word: &[u8], form: &Aff) -> Result<(), AllocError>
    requires { IsTrue (list_all is_ascii word.now) }
{
    out.append(word)?;
    for coef in form.coefs.as_slice() {
        out.append(b" ")?;
        put_integer(out, *coef)?;
    }
    out.append(b" constant ")?;
    put_integer(out, form.constant)?;
    out.append(b"\n")
}

/// Adds the forms of the conditions between parameters.
fn put_requirements(alloc: Global, out: &mut Text, recipe: &Recipe) -> Result<(), AllocError> {
    recipe.known();
    let params = recipe.params.len() as u32;
    for condition in recipe.conditions.as_slice() {
        let form = requirement_of(alloc, condition, params)?;
        put_form(out, b"requirement", &form)?;
    }
    Ok(())
}

/// Adds the forms of the splits' conditions.
fn put_conditions(alloc: Global, out: &mut Text, recipe: &Recipe) -> Result<(), AllocError> {
    recipe.known();
    let values = [1, 2, 3, 4, 5, 6];
    let params = recipe.params.len();
    for command in recipe.commands.as_slice() {
        if let Command::Split { condition, .. } = command {
            let form = condition_of(alloc, condition, &values[..params])?;
            put_form(out, b"condition", &form)?;
        }
    }
    Ok(())
}

pub fn put_forms(alloc: Global, out: &mut Text, recipe: &Recipe) -> Result<(), AllocError> {
    put_requirements(alloc, out, recipe)?;
    put_conditions(alloc, out, recipe)
}
