ghost use Rattle.std.specs.Prelude.{◌≡◌, ◌++◌, IfOk, IsTrue, OnOk, codes};
ghost use Rattle.std.specs.List.{flat_map};
ghost use Rattle.ch_print.specs.Lists.{behind, separated};
ghost use Rattle.ch_scriptprint.specs.Back.{IsReadAs};
ghost use Rattle.ch_scriptprint.specs.Printable.{is_printable};
ghost use Rattle.ch_scriptprint.specs.Printed.{command_line, head_line, recipe_text, require_line};

use crate::commands::{put_command, put_require};
use ch_affine::Text;
use ch_script::{Command, Cond, Recipe};
use std::alloc::{AllocError, Global};

/// Adds names, each behind a comma.
fn put_more_names(out: &mut Text, names: &[Text]) -> Result<(), AllocError>
    ensures { OnOk result (out.new ≡ out.old ++ flat_map (behind (codes ", ") (λ n. n)) names.now) }
{
    for name in names {
        out.append(b", ")?;
        out.append(name.as_bytes())?;
    }
    Ok(())
}

/// Adds names with commas between them.
fn put_names(out: &mut Text, names: &[Text]) -> Result<(), AllocError>
    ensures { OnOk result (out.new ≡ out.old ++ separated (codes ", ") (λ n. n) names.now) }
{
    let Some((first, rest)) = names.split_first() else {
        return Ok(());
    };
    out.append(first.as_bytes())?;
    put_more_names(out, rest)
}

fn put_head(out: &mut Text, name: &Text, params: &[Text]) -> Result<(), AllocError>
    ensures { OnOk result (out.new ≡ out.old ++ head_line name.now params.now) }
{
    out.append(b"recipe ")?;
    out.append(name.as_bytes())?;
    out.append(b"(")?;
    put_names(out, params)?;
    out.append(b") {\n")
}

fn put_requires(out: &mut Text, params: &[Text], conditions: &[Cond]) -> Result<(), AllocError>
    ensures { OnOk result (out.new ≡ out.old ++ flat_map (require_line params.now) conditions.now) }
{
    for condition in conditions {
        put_require(out, params, condition)?;
    }
    Ok(())
}

fn put_commands(out: &mut Text, params: &[Text], commands: &[Command]) -> Result<(), AllocError>
    ensures { OnOk result (out.new ≡ out.old ++ flat_map (command_line params.now) commands.now) }
{
    for command in commands {
        put_command(out, params, command)?;
    }
    Ok(())
}

fn printed(alloc: Global, recipe: &Recipe) -> Result<Text, AllocError>
    ensures { IfOk result (λ text. text ≡ recipe_text recipe.now) }
{
    let mut out = Text::new(alloc);
    let params = recipe.params.as_slice();
    put_head(&mut out, &recipe.name, params)?;
    put_requires(&mut out, params, recipe.conditions.as_slice())?;
    put_commands(&mut out, params, recipe.commands.as_slice())?;
    out.append(b"}\n")?;
    Ok(out)
}

/// The text of a recipe: its head, a line for each condition and each command, and its closing
/// brace.
///
/// Where the recipe can be written in the language (its names are names of the language, of which
/// no two parameters share one, its numbers are numbers of the language, and no list or sum is
/// empty), the text is read as the same recipe again.
pub fn print_recipe(alloc: Global, recipe: &Recipe) -> Result<Text, AllocError>
    ensures text { IfOk result (λ text. text ≡ recipe_text recipe.now) }
    ensures reads { IsTrue (is_printable recipe.now) → IfOk result (λ text.
        IsReadAs text recipe.now) }
{
    recipe.known();
    printed(alloc, recipe)
}
