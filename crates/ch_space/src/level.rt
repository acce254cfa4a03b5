ghost use Rattle.std.specs.Prelude.{◌≡◌, ◌≤◌, [], ◌∷◌, ◌++◌, IfOk};
ghost use Rattle.ch_nest.specs.Limits.{deepest};
ghost use Rattle.ch_space.specs.Statements.{loops};
ghost use Rattle.ch_space.specs.declared.level.Around.TheVariants.{Inside, Where};

use ch_affine::{Aff, List, copied_forms};
use std::alloc::{AllocError, Global};

/// A loop around a statement: its values are the greatest of `lows` and what follows by `step`, as
/// far as the least of `highs`, all of them forms of the loops around it.
#[derive(Debug, Drop)]
pub(crate) struct Level {
    pub(crate) lows: List<Aff>,
    pub(crate) highs: List<Aff>,
    pub(crate) step: u32,
}

/// A loop or a condition around a statement.
#[derive(Debug, Drop)]
pub(crate) enum Around {
    Inside(Level),
    /// What stands in it runs where the row, a form of the loops around it, is at least 0.
    Where(Aff),
}

fn copied_level(alloc: Global, lows: &[Aff], highs: &[Aff], step: u32) -> Result<Level, AllocError>
    ensures { IfOk result (λ copy.
        copy ≡ record { lows = lows.now; highs = highs.now; step = step }) }
{
    let lows = copied_forms(alloc, lows)?;
    let highs = copied_forms(alloc, highs)?;
    Ok(Level { lows, highs, step })
}

fn copied_part(alloc: Global, part: &Around) -> Result<Around, AllocError>
    ensures { IfOk result (λ copy. copy ≡ part.now) }
{
    match part {
        Around::Inside(level) => Ok(Around::Inside(copied_level(
            alloc,
            level.lows.as_slice(),
            level.highs.as_slice(),
            level.step,
        )?)),
        Around::Where(row) => Ok(Around::Where(row.copied(alloc)?)),
    }
}

fn copied(alloc: Global, around: &[Around]) -> Result<List<Around>, AllocError>
    ensures { IfOk result (λ copy. copy ≡ around.now) }
{
    let mut copy = List::new(alloc);
    for part in around {
        copy.push(copied_part(alloc, part)?)?;
    }
    Ok(copy)
}

/// Copies of the loops and conditions, and of one more loop inside them.
pub(crate) fn inside_loop(
    alloc: Global,
    around: &[Around],
    lows: &[Aff],
    highs: &[Aff],
    step: u32,
) -> Result<List<Around>, AllocError>
    ensures { IfOk result (λ inside. inside
        ≡ around.now ++ Inside (record { lows = lows.now; highs = highs.now; step = step }) ∷ []) }
{
    let mut inside = copied(alloc, around)?;
    inside.push(Around::Inside(copied_level(alloc, lows, highs, step)?))?;
    Ok(inside)
}

/// Copies of the loops and conditions, and of one more condition inside them.
pub(crate) fn inside_condition(
    alloc: Global,
    around: &[Around],
    row: &Aff,
) -> Result<List<Around>, AllocError>
    ensures { IfOk result (λ inside. inside ≡ around.now ++ Where row.now ∷ []) }
{
    let mut inside = copied(alloc, around)?;
    inside.push(Around::Where(row.copied(alloc)?))?;
    Ok(inside)
}

/// The places, and one more behind them.
pub(crate) fn places_inside(
    alloc: Global,
    places: &[u32],
    place: u32,
) -> Result<List<u32>, AllocError>
    ensures { IfOk result (λ inside. inside ≡ places.now ++ place ∷ []) }
{
    let mut inside = List::from_slice(alloc, places)?;
    inside.push(place)?;
    Ok(inside)
}

/// How many of them are loops.
#[tactic(auto, using(crate::proofs::Builds::loops_inside, crate::proofs::Builds::loops_where, crate::proofs::Builds::loops_end))]
pub(crate) fn loops_in(around: &[Around]) -> usize
    requires few { loops around.now ≤ deepest }
    ensures { result ≡ loops around.now }
{
    let mut loops = 0;
    for part in around {
        match part {
            Around::Inside(_) => loops += 1,
            Around::Where(_) => {}
        }
    }
    loops
}
