//! What a line of a case says of the first program of a deck.

ghost use Rattle.ch_deck.specs.Programs.{IsProgram};

use crate::answers::{Wanted, answer_of, original_code};
use crate::recipes::{recipe_of, values_of};
use anyhow::Result;
use ch_affine::Text;
use ch_deck::{Program, read_deck};
use std::alloc::Global;

fn of_program(alloc: Global, program: &Program, line: &str, repeats: u32) -> Result<Text>
    requires { IsProgram program.now }
{
    if line == "original" {
        return Ok(original_code(alloc, &program.nest)?);
    }
    let (line, shows_code) = match line.strip_prefix("code ") {
        Some(rest) => (rest, true),
        None => (line, false),
    };
    let (text, values) = line.split_once(" at ").unwrap_or((line, ""));
    let Some(recipe) = recipe_of(alloc, text)? else {
        return Ok(Text::new(alloc));
    };
    let values = values_of(alloc, values)?;
    let wanted = Wanted {
        nest: &program.nest,
        recipe: &recipe,
        values: values.as_slice(),
        shows_code,
        repeats,
    };
    Ok(answer_of(alloc, &wanted)?)
}

/// What a line says of the first program of a deck.
pub(crate) fn answer(alloc: Global, deck: &str, line: &str, repeats: u32) -> Result<Text> {
    let deck = read_deck(alloc, deck.as_bytes())?;
    match deck.programs() {
        [] => Ok(Text::new(alloc)),
        [program, ..] => of_program(alloc, program, line, repeats),
    }
}
