//! What a recipe makes of a nest: as it is judged, and as a variant of it is built.

ghost use Rattle.std.specs.Prelude.{◌≡◌, ◌^◌, length, IsTrue};
ghost use Rattle.std.specs.List.{All};
ghost use Rattle.ch_affine.specs.Affine.{IsAtMost};
ghost use Rattle.ch_grid.specs.Grid.{sizes};
ghost use Rattle.ch_grid.specs.Points.{is_point};
ghost use Rattle.ch_nest.specs.Sound.{is_sound};

use crate::grids::{grid_around, is_in, middle};
use crate::recipes::are_small;
use crate::texts::{guarded_text, legal_text, refusal_text, used_text};
use ch_affine::Text;
use ch_code::{code_text, guards};
use ch_codegen::generate;
use ch_constrain::values_at;
use ch_grid::Grid;
use ch_nest::Nest;
use ch_script::Recipe;
use ch_variant::{ApplyError, Variant, apply, build, judge, original, used_point};
use std::alloc::{AllocError, Global};

/// A recipe to be applied to a nest at these values.
#[derive(Clone, Copy)]
pub(crate) struct Wanted<'a> {
    pub(crate) nest: &'a Nest,
    pub(crate) recipe: &'a Recipe,
    pub(crate) values: &'a [i64],
    pub(crate) shows_code: bool,
    pub(crate) repeats: u32,
}

/// The number under which variants are built.
const SUBJECT: u32 = 7;

/// The code of a nest as it is.
pub(crate) fn original_code(alloc: Global, nest: &Nest) -> Result<Text, AllocError>
    requires { IsTrue (is_sound nest.now) }
{
    let variant = original(alloc, SUBJECT, nest)?;
    code_text(alloc, variant.unit())
}

fn sentence(alloc: Global, text: &[u8]) -> Result<Text, AllocError> {
    let mut out = Text::new(alloc);
    for byte in text {
        if byte.is_ascii() {
            out.push(*byte)?;
        }
    }
    Ok(out)
}

/// The refusal of a recipe, or the want of memory.
fn refused(alloc: Global, nest: &Nest, error: ApplyError) -> Result<Text, ApplyError> {
    match error {
        ApplyError::Refused(refusal) => {
            Ok(refusal_text(alloc, nest.arrays.as_slice(), &refusal)?)
        }
        memory => Err(memory),
    }
}

/// Makes the recipe's code at these values once more for each repeat.
fn make_again(alloc: Global, wanted: &Wanted<'_>, values: &[i64])
    requires sound { IsTrue (is_sound wanted.now.nest.now) }
    requires params { length values.now ≡ length wanted.now.recipe.now.params }
    requires small { All (IsAtMost (2 ^ 20)) values.now }
{
    if let Ok(space) = apply(alloc, wanted.nest, wanted.recipe, values) {
        for _ in 1..wanted.repeats {
            let _unit = generate(alloc, wanted.nest, &space);
        }
    }
}

/// How the recipe is judged at these values, after its code was made so many times.
fn judged(alloc: Global, wanted: &Wanted<'_>, values: &[i64]) -> Result<Text, ApplyError>
    requires sound { IsTrue (is_sound wanted.now.nest.now) }
    requires params { length values.now ≡ length wanted.now.recipe.now.params }
    requires small { All (IsAtMost (2 ^ 20)) values.now }
{
    if wanted.repeats > 1 {
        make_again(alloc, wanted, values);
    }
    match judge(alloc, wanted.nest, wanted.recipe, values) {
        Ok(judgement) => Ok(legal_text(alloc, judgement)?),
        Err(error) => refused(alloc, wanted.nest, error),
    }
}

/// Whether a variant tells what it was built for.
fn tells(variant: &Variant, point: &[u32]) -> bool {
    variant.subject() == SUBJECT && variant.point() == point
}

/// A text, and behind it the code of a variant.
fn with_code(alloc: Global, text: &Text, variant: &Variant) -> Result<Text, AllocError> {
    let mut out = text.copied(alloc)?;
    out.append(b"\n")?;
    out.append(code_text(alloc, variant.unit())?.as_bytes())?;
    Ok(out)
}

/// What a variant says, where its recipe is judged so: that, and how many guards its code has, with
/// the code behind it where that is wanted.
fn kept(
    alloc: Global,
    wanted: &Wanted<'_>,
    variant: &Variant,
    point: &[u32],
    judgement: &Text,
) -> Result<Text, AllocError> {
    if !tells(variant, point) {
        return sentence(alloc, b"the variant is another one");
    }
    let text = guarded_text(alloc, judgement, guards(variant.unit()))?;
    if wanted.shows_code {
        return with_code(alloc, &text, variant);
    }
    Ok(text)
}

/// What is said of a refused build, where the recipe is judged so.
fn unbuilt(
    alloc: Global,
    nest: &Nest,
    error: ApplyError,
    judgement: &Text,
) -> Result<Text, ApplyError> {
    let text = refused(alloc, nest, error)?;
    if text.is(judgement.as_bytes()) {
        return Ok(text);
    }
    Ok(sentence(alloc, b"the build is refused otherwise")?)
}

/// What a build at this point says, where the recipe is judged so at the values that it uses: that
/// judgement, with the code behind it where that is wanted.
fn built(
    alloc: Global,
    wanted: &Wanted<'_>,
    grid: &Grid,
    point: &[u32],
    judgement: &Text,
) -> Result<Text, ApplyError>
    requires sound { IsTrue (is_sound wanted.now.nest.now) }
    requires params { length grid.now.params ≡ length wanted.now.recipe.now.params }
    requires point { IsTrue (is_point (sizes grid.now.params) point.now) }
{
    match build(alloc, SUBJECT, wanted.nest, wanted.recipe, grid, point) {
        Ok(variant) => Ok(kept(alloc, wanted, &variant, point, judgement)?),
        Err(error) => unbuilt(alloc, wanted.nest, error, judgement),
    }
}

/// How the recipe is judged at these values, which a build at the point uses, and what it says.
fn told_for(
    alloc: Global,
    wanted: &Wanted<'_>,
    grid: &Grid,
    point: &[u32],
    values: &[i64],
) -> Result<Text, ApplyError>
    requires sound { IsTrue (is_sound wanted.now.nest.now) }
    requires params { length grid.now.params ≡ length wanted.now.recipe.now.params }
    requires values { length values.now ≡ length wanted.now.recipe.now.params }
    requires small { All (IsAtMost (2 ^ 20)) values.now }
    requires point { IsTrue (is_point (sizes grid.now.params) point.now) }
{
    let judgement = judged(alloc, wanted, values)?;
    built(alloc, wanted, grid, point, &judgement)
}

/// What is said where a build uses another point: the judgement at the point's own values, the
/// values that are used, and what is said for these.
fn told_elsewhere(
    alloc: Global,
    wanted: &Wanted<'_>,
    grid: &Grid,
    point: &[u32],
    used: &[u32],
) -> Result<Text, ApplyError>
    requires sound { IsTrue (is_sound wanted.now.nest.now) }
    requires params { length grid.now.params ≡ length wanted.now.recipe.now.params }
    requires values { length wanted.now.values.now ≡ length wanted.now.recipe.now.params }
    requires small { All (IsAtMost (2 ^ 20)) wanted.now.values.now }
    requires point { IsTrue (is_point (sizes grid.now.params) point.now) }
    requires used { IsTrue (is_point (sizes grid.now.params) used.now) }
{
    let here = judged(alloc, wanted, wanted.values)?;
    let values = values_at(alloc, grid, used)?;
    let there = told_for(alloc, wanted, grid, point, values.as_slice())?;
    Ok(used_text(alloc, &here, values.as_slice(), &there)?)
}

/// What is said of a recipe at a point of a grid: the judgement at the point's values, and also the
/// one at the values that a build uses, where these are others.
fn told_at(
    alloc: Global,
    wanted: &Wanted<'_>,
    grid: &Grid,
    point: &[u32],
) -> Result<Text, ApplyError>
    requires sound { IsTrue (is_sound wanted.now.nest.now) }
    requires params { length grid.now.params ≡ length wanted.now.recipe.now.params }
    requires values { length wanted.now.values.now ≡ length wanted.now.recipe.now.params }
    requires small { All (IsAtMost (2 ^ 20)) wanted.now.values.now }
    requires point { IsTrue (is_point (sizes grid.now.params) point.now) }
{
    let used = used_point(alloc, wanted.recipe, grid, point)?;
    if used.as_slice() == point {
        told_for(alloc, wanted, grid, point, wanted.values)
    } else {
        told_elsewhere(alloc, wanted, grid, point, used.as_slice())
    }
}

/// What is said of a recipe at fitting values.
fn told(alloc: Global, wanted: &Wanted<'_>) -> Result<Text, ApplyError>
    requires sound { IsTrue (is_sound wanted.now.nest.now) }
    requires params { length wanted.now.values.now ≡ length wanted.now.recipe.now.params }
    requires small { All (IsAtMost (2 ^ 20)) wanted.now.values.now }
{
    let Some(grid) = grid_around(alloc, wanted.values)? else {
        return judged(alloc, wanted, wanted.values);
    };
    let point = middle(alloc, wanted.values.len())?;
    let recipe = wanted.recipe;
    if grid.params.len() != recipe.params.len() || !is_in(&grid, point.as_slice()) {
        return Ok(sentence(alloc, b"no point of the grid")?);
    }
    told_at(alloc, wanted, &grid, point.as_slice())
}

/// What is said of a recipe.
pub(crate) fn answer_of(alloc: Global, wanted: &Wanted<'_>) -> Result<Text, ApplyError>
    requires { IsTrue (is_sound wanted.now.nest.now) }
{
    let recipe = wanted.recipe;
    if wanted.values.len() != recipe.params.len() || !are_small(wanted.values) {
        return Ok(sentence(alloc, b"the values don't fit")?);
    }
    told(alloc, wanted)
}
