//! The code of a space.

ghost use Rattle.std.specs.Prelude.{◌≡◌, ◌<◌, ◌≤◌, ◌≤ℤ◌, length, suc, true, false, IfOk, IfSome, MatchOption};
ghost use Rattle.std.specs.List.{All};
ghost use Rattle.ch_code.specs.Trace.{trace, unit_trace};
ghost use Rattle.ch_space.specs.Keeps.{AreApart};
ghost use Rattle.ch_timed.specs.Members.{Each};
ghost use Rattle.ch_codegen.specs.Around.{Executes, IsAround};
ghost use Rattle.ch_codegen.specs.Bounds.{AreRanges, IsPlain};
ghost use Rattle.ch_codegen.specs.Cuts.{HasNone, IsSteady};
ghost use Rattle.ch_codegen.specs.Formed.{IsFormed};
ghost use Rattle.ch_codegen.specs.Parts.{AreSystems, IsRun, IsTurn, Lists, Together};

use crate::cuts::{active_pieces, cut_end, statements_cut, whole_range};
use crate::loops::{fixed_ranges, shared_ends};
use crate::plain::are_plain;
use crate::runs::{run_end, shared_range};
use crate::statements::{end_code, guard_over};
use crate::systems::known_systems;
use crate::trees::{in_sequence, loop_between, loop_over};
use crate::units::{copied_arrays, copied_temps};
use ch_affine::{List, Range};
use ch_code::{Code, Unit};
use ch_nest::Nest;
use ch_space::{Piece, Space};
use std::alloc::{AllocError, Global};

/// The most statements that loops which are cut into stretches may have between them, unless there
/// are as many pieces. So the code of 256 pieces stays below 4 MB where a statement with its loops
/// takes less than 8 KB.
const MOST_STATEMENTS: usize = 512;

/// What is around some code.
#[derive(Clone, Copy)]
pub(crate) struct Around {
    /// The number of loops.
    pub(crate) depth: usize,
    /// Whether the values of the loops follow the rows of each piece.
    pub(crate) known: bool,
    /// How many statements the code may have for each piece, taken together.
    pub(crate) copies: usize,
}

/// The code of pieces inside loops that they share: one part for each run, in their order.
#[cycle(code)]
pub(crate) fn code_of(alloc: Global, pieces: &[Piece], around: Around) -> Result<Code, AllocError>
    requires apart { AreApart pieces.now }
    requires systems { AreSystems pieces.now }
    requires together { Together around.depth pieces.now }
    ensures lists { IfOk result (λ code.
        Executes around.depth around.known pieces.now code) }
    ensures formed { IfOk result (λ code. IsFormed around.depth pieces.now code) }
{
    let depth = around.depth;
    let mut parts = List::new(alloc);
    let mut start = 0;
    while start < pieces.len() {
        let rest = &pieces[start..];
        let count = run_end(rest, depth);
        let part = run_code(alloc, &rest[..count], around)?;
        parts.push(part)?;
        start += count;
    }
    Ok(in_sequence(parts))
}

/// The code of a run: a statement, or loops around the code of its pieces.
#[cycle(code)]
fn run_code(alloc: Global, run: &[Piece], around: Around) -> Result<Code, AllocError>
    requires some { 0 < length run.now }
    requires apart { AreApart run.now }
    requires systems { AreSystems run.now }
    requires run { IsRun around.depth run.now }
    ensures lists { IfOk result (λ code.
        Executes around.depth around.known run.now code) }
    ensures formed { IfOk result (λ code. IsFormed around.depth run.now code) }
{
    let depth = around.depth;
    let first = &run[0];
    if first.levels as usize == depth {
        return end_code(alloc, first, depth, around.known);
    }
    if !are_plain(run) {
        return hull_code(alloc, run, around);
    }
    if run.len() == 1 && !around.known {
        return guarded_code(alloc, run, around);
    }
    loop_code(alloc, run, around)
}

/// The code of one piece inside all loops that it shares, whose values don't tell that its rows
/// hold: under a guard.
#[cycle(code)]
fn guarded_code(alloc: Global, run: &[Piece], around: Around) -> Result<Code, AllocError>
    requires unknown { around.known ≡ false }
    requires one { length run.now ≡ 1 }
    requires apart { AreApart run.now }
    requires systems { AreSystems run.now }
    requires plain { All IsPlain run.now }
    requires together { Together (suc around.depth) run.now }
    ensures lists { IfOk result (λ code. Executes around.depth false run.now code) }
    ensures formed { IfOk result (λ code. IsFormed around.depth run.now code) }
{
    let behind = Around {
        known: true,
        ..around
    };
    let inner = loop_code(alloc, run, behind)?;
    guard_over(alloc, &run[0], inner)
}

/// The code of plain pieces that share the next loop: between the bounds that they have in common,
/// or in stretches, or over all values.
#[cycle(code)]
fn loop_code(alloc: Global, run: &[Piece], around: Around) -> Result<Code, AllocError>
    requires some { 0 < length run.now }
    requires apart { AreApart run.now }
    requires systems { AreSystems run.now }
    requires plain { All IsPlain run.now }
    requires together { Together (suc around.depth) run.now }
    ensures lists { IfOk result (λ code.
        Executes around.depth around.known run.now code) }
    ensures formed { IfOk result (λ code. IsFormed around.depth run.now code) }
{
    let depth = around.depth;
    if let Some(ends) = shared_ends(alloc, run, depth)? {
        let inside = Around {
            depth: depth + 1,
            ..around
        };
        let inner = code_of(alloc, run, inside)?;
        return loop_between(alloc, depth, ends.lows, ends.highs, inner);
    }
    if let Some(ranges) = fixed_ranges(alloc, run, depth)? {
        return cut_code(alloc, run, ranges.as_slice(), around);
    }
    hull_code(alloc, run, around)
}

/// The code of pieces that share the next loop, over all values that any of them has there.
#[cycle(code)]
fn hull_code(alloc: Global, run: &[Piece], around: Around) -> Result<Code, AllocError>
    requires some { 0 < length run.now }
    requires apart { AreApart run.now }
    requires systems { AreSystems run.now }
    requires together { Together (suc around.depth) run.now }
    ensures lists { IfOk result (λ code.
        Executes around.depth around.known run.now code) }
    ensures formed { IfOk result (λ code. IsFormed around.depth run.now code) }
{
    let depth = around.depth;
    let range = shared_range(run, depth);
    let inside = Around {
        depth: depth + 1,
        known: false,
        ..around
    };
    let inner = code_of(alloc, run, inside)?;
    loop_over(alloc, depth, range, inner)
}

/// The code of pieces that share the next loop, where each has a fixed range there: one loop for
/// each stretch of values with the same pieces, or one over all values where too many statements
/// came of it.
#[cycle(code)]
fn cut_code(
    alloc: Global,
    run: &[Piece],
    ranges: &[Range],
    around: Around,
) -> Result<Code, AllocError>
    requires some { 0 < length run.now }
    requires apart { AreApart run.now }
    requires systems { AreSystems run.now }
    requires together { Together (suc around.depth) run.now }
    requires ranges { AreRanges around.depth run.now ranges.now }
    ensures lists { IfOk result (λ code.
        Executes around.depth around.known run.now code) }
    ensures formed { IfOk result (λ code. IsFormed around.depth run.now code) }
{
    let statements = statements_cut(ranges);
    let most = run.len().saturating_mul(around.copies);
    if statements > most {
        return hull_code(alloc, run, around);
    }
    let each = Around {
        copies: most / statements,
        ..around
    };
    let whole = whole_range(ranges);
    let mut parts = List::new(alloc);
    let mut low = whole.low;
    while low <= whole.high {
        let high = cut_end(ranges, low, whole.high);
        let stretch = Range { low, high };
        match stretch_code(alloc, run, ranges, each, stretch)? {
            Some(part) => parts.push(part)?,
            None => {}
        }
        low = high + 1;
    }
    Ok(in_sequence(parts))
}

/// The code of one stretch, or None where no piece has a value in it.
#[cycle(code)]
fn stretch_code(
    alloc: Global,
    run: &[Piece],
    ranges: &[Range],
    around: Around,
    stretch: Range,
) -> Result<Option<Code>, AllocError>
    requires apart { AreApart run.now }
    requires systems { AreSystems run.now }
    requires together { Together (suc around.depth) run.now }
    requires ranges { AreRanges around.depth run.now ranges.now }
    requires pieces { 0 < length run.now }
    requires some { stretch.low ≤ℤ stretch.high }
    requires steady { Each (IsSteady stretch.low stretch.high) ranges.now }
    ensures lists { IfOk result (λ o. MatchOption o
        (HasNone around.depth around.known stretch run.now)
        (λ code. Lists (IsAround around.depth around.known run.now)
        (IsTurn stretch.low stretch.high run.now) (trace code))) }
    ensures formed { IfOk result (λ o. IfSome o (λ code. IsFormed around.depth run.now code)) }
{
    let depth = around.depth;
    let active = active_pieces(alloc, run, ranges, stretch.low)?;
    if active.is_empty() {
        return Ok(None);
    }
    let inside = Around {
        depth: depth + 1,
        ..around
    };
    let inner = code_of(alloc, active.as_slice(), inside)?;
    Ok(Some(loop_over(alloc, depth, stretch, inner)?))
}

/// Code that executes a space's list, in the order of its time vectors, over the nest's arrays and
/// the space's buffers.
///
/// Neighbouring pieces that share the places before a loop share the loop. Where the rows of each
/// of them give it the same bounds, it runs between these. Where they give each piece a fixed
/// range, there is a loop for each stretch of values with the same pieces, unless too many
/// statements came of it. Else it runs from the least to the greatest value that any of them may
/// have, and each piece stands under the guard of its system, inside all loops that it shares. A
/// piece with hidden values, or with a bound whose divisor has more than 32 bits, has loops over
/// its box and a guard around its statement. This is separation as of Quilleré, Rajopadhye and
/// Wilde (2000), in one dimension at a time and over numbers.
pub fn generate(alloc: Global, nest: &Nest, s: &Space) -> Result<Unit, AllocError>
    requires { s.now.arrays ≡ length nest.now.arrays }
    ensures trace { IfOk result (λ u. unit_trace u ≡ s.now.list) }
    ensures arrays { IfOk result (λ u. u.arrays ≡ nest.now.arrays) }
    ensures temps { IfOk result (λ u. u.temps ≡ s.now.temps) }
{
    let pieces = s.pieces.as_slice();
    known_systems(pieces);
    let around = Around {
        depth: 0,
        known: true,
        copies: MOST_STATEMENTS / pieces.len().max(1),
    };
    let root = code_of(alloc, pieces, around)?;
    let arrays = copied_arrays(alloc, nest.arrays.as_slice())?;
    let temps = copied_temps(alloc, s.temps.as_slice())?;
    Ok(Unit {
        root,
        arrays,
        temps,
    })
}
