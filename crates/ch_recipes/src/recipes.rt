//! A line of a case: a recipe, and the values of its parameters.

ghost use Rattle.std.specs.Prelude.{◌^◌, IsTrue};
ghost use Rattle.std.specs.List.{All};
ghost use Rattle.ch_affine.specs.Affine.{IsAtMost};

use anyhow::Result;
use ch_affine::List;
use ch_lex::tokens;
use ch_script::{ParsedRecipe, Recipe, parse_recipe};
use std::alloc::{AllocError, Global};

/// The most bytes of a recipe's text.
const MOST_BYTES: usize = 1_048_576;

/// The recipe of a text; None for a text that is too long.
pub(crate) fn recipe_of(alloc: Global, text: &str) -> Result<Option<Recipe>> {
    let bytes = text.as_bytes();
    if bytes.len() > MOST_BYTES {
        return Ok(None);
    }
    let tokens = tokens(alloc, bytes)?;
    let ParsedRecipe { recipe, next: _ } = parse_recipe(alloc, tokens.as_slice(), bytes, 0)?;
    Ok(Some(recipe))
}

/// The numbers of a text, as `2,-1`.
pub(crate) fn values_of(alloc: Global, text: &str) -> Result<List<i64>, AllocError> {
    let mut values = List::new(alloc);
    for part in text.split(',') {
        if let Ok(number) = part.parse::<i64>() {
            values.push(number)?;
        }
    }
    Ok(values)
}

/// The greatest magnitude of a value.
const MOST_VALUE: u64 = 1_048_576;

/// Whether each value is one that a parameter may have.
pub(crate) fn are_small(values: &[i64]) -> bool
    ensures { IsTrue result → All (IsAtMost (2 ^ 20)) values.now }
{
    for value in values {
        if value.unsigned_abs() > MOST_VALUE {
            return false;
        }
    }
    true
}
