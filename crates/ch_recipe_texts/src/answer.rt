//! What is said of one text.
ghost use Rattle.std.specs.Prelude.{◌≤◌, ◌^◌, length};

use crate::forms::put_forms;
use ch_affine::Text;
use ch_lex::{Code2, ParseError, spot, tokens};
use ch_print::put_number;
use ch_script::{ParsedRecipe, parse_recipe};
use ch_scriptprint::print_recipe;
use std::alloc::{AllocError, Global};

/// The longest text that is read.
const MOST_BYTES: usize = 1 << 20;

/// The recipe that the text begins with, and the number of its tokens.
fn read(alloc: Global, text: &[u8]) -> Result<ParsedRecipe, ParseError>
    requires { length text.now ≤ 2 ^ 20 }
{
    let found = tokens(alloc, text)?;
    parse_recipe(alloc, found.as_slice(), text, 0)
}

/// Adds the code of a refusal, and its line and column. Its place lies in the text or is its end.
fn put_refusal(out: &mut Text, text: &[u8], code: Code2, at: u32) -> Result<(), AllocError>
    requires { length text.now ≤ 2 ^ 20 }
{
    let spot = spot(text, at.min(text.len() as u32));
    out.append(b"refused ")?;
    out.append(code.text())?;
    out.append(b" at ")?;
    put_number(out, u64::from(spot.line))?;
    out.append(b":")?;
    put_number(out, u64::from(spot.column))
}

/// Whether what is printed is read as a recipe that is printed so.
fn is_read_back(alloc: Global, printed: &Text) -> Result<bool, AllocError> {
    if printed.len() > MOST_BYTES {
        return Ok(false);
    }
    match read(alloc, printed.as_bytes()) {
        Ok(again) => {
            let second = print_recipe(alloc, &again.recipe)?;
            Ok(second.is(printed.as_bytes()))
        }
        Err(_refusal) => Ok(false),
    }
}

/// Adds how many tokens a recipe has, its text, and behind it the forms of its conditions.
fn put_recipe(alloc: Global, out: &mut Text, parsed: &ParsedRecipe) -> Result<(), AllocError> {
    let printed = print_recipe(alloc, &parsed.recipe)?;
    if is_read_back(alloc, &printed)? {
        out.append(b"accepted, ")?;
    } else {
        out.append(b"not read back, ")?;
    }
    put_number(out, u64::from(parsed.next))?;
    out.append(b" tokens\n")?;
    out.append(printed.as_bytes())?;
    put_forms(alloc, out, &parsed.recipe)
}

/// The text of a recipe with so many commands that it is nearly as long as a text may be.
pub fn long_text(alloc: Global) -> Result<Vec<u8>, AllocError> {
    let mut text = Vec::new(alloc);
    text.extend_from_slice(b"recipe r() { ")?;
    for _command in 0..80_000u32 {
        text.extend_from_slice(b"accumulate();")?;
    }
    Ok(text)
}

/// The refusal of a text, or the text and the forms of the recipe that it begins with.
pub fn answer(alloc: Global, text: &[u8]) -> Result<Text, AllocError> {
    let mut out = Text::new(alloc);
    if text.len() > MOST_BYTES {
        out.append(b"too long")?;
        return Ok(out);
    }
    match read(alloc, text) {
        Ok(parsed) => put_recipe(alloc, &mut out, &parsed)?,
        Err(ParseError::Refused { code, at, .. }) => put_refusal(&mut out, text, code, at)?,
        Err(ParseError::Memory) => out.append(b"no memory")?,
    }
    Ok(out)
}
