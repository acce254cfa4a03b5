//! What is told of a session.
ghost use Rattle.std.specs.Prelude.{◌≡◌, ◌++◌, IfOk, IsTrue, OnOk, codes, length};
ghost use Rattle.std.specs.List.{All, list_all};
ghost use Rattle.ch_constrain.specs.Nearest.{nearest};
ghost use Rattle.ch_grid.specs.Grid.{sizes};
ghost use Rattle.ch_grid.specs.Points.{is_point};
ghost use Rattle.ch_print.specs.Numbers.{number_text};
ghost use Rattle.ch_report.specs.Numbered.{numbered};
ghost use Rattle.ch_report.specs.Sessions.{best_inside, best_line, cost_text, entry_line};
ghost use Rattle.ch_report.specs.Sessions.{found_text, head_line, is_inside, nearest_text};
ghost use Rattle.ch_report.specs.Sessions.{point_line, rank_line, session_lines, used_text};

use crate::part::{BestLine, EntryLine, Found, RankLine, SessionPart};
use crate::phases::put_phase;
use crate::points::put_point;
use crate::refusals::put_refusal;
use ch_affine::{Aff, Text};
use ch_constrain::{is_admissible, nearest};
use ch_grid::Grid;
use ch_nest::ArrayDecl;
use ch_print::put_number;
use ch_rank::Phase;
use std::alloc::{AllocError, Global};

/// What a session tunes, as far as its lines tell of it.
#[derive(Drop)]
pub struct Tuning<'a> {
    pub name: &'a Text,
    /// The values of the recipe's parameters.
    pub grid: &'a Grid,
    /// The conditions between the parameters: a point is admissible where each of these forms is at
    /// least 0 at its values.
    pub conditions: &'a [Aff],
    /// The arrays of the program.
    pub arrays: &'a [ArrayDecl],
}

fn put_found(out: &mut Text, arrays: &[ArrayDecl], found: &Found) -> Result<(), AllocError>
    ensures { OnOk result (out.new ≡ out.old ++ found_text arrays.now found.now) }
{
    match found {
        Found::Cost { cost, .. } => put_cost_of(out, *cost),
        Found::Refused(refusal) => put_refusal(out, arrays, refusal),
    }
}

fn put_cost_of(out: &mut Text, cost: u64) -> Result<(), AllocError>
    ensures { OnOk result (out.new ≡ out.old ++ codes "cost " ++ number_text cost) }
{
    out.append(b"cost ")?;
    put_number(out, cost)
}

/// Adds the line of entry `k`, counted from 1.
#[tactic(auto, unfolding(crate::specs::Sessions::entry_line))]
fn put_entry(
    alloc: Global,
    out: &mut Text,
    tuning: &Tuning<'_>,
    k: u64,
    entry: &EntryLine,
) -> Result<(), AllocError>
    requires { IsTrue (is_point (sizes tuning.now.grid.now.params) entry.now.point) }
    ensures { OnOk result (out.new
        ≡ out.old ++ entry_line tuning.now.grid.now.params tuning.now.arrays.now k entry.now) }
{
    out.append(b"entry ")?;
    put_number(out, k)?;
    out.append(b" trial ")?;
    put_number(out, u64::from(entry.trial))?;
    out.append(b" at ")?;
    put_point(alloc, out, tuning.grid, entry.point.as_slice())?;
    out.append(b" ")?;
    put_found(out, tuning.arrays, &entry.found)?;
    out.append(b"\n")
}

/// Adds the lines of the entries, counted from 1.
fn put_entries(
    alloc: Global,
    out: &mut Text,
    tuning: &Tuning<'_>,
    entries: &[EntryLine],
) -> Result<(), AllocError>
    requires { IsTrue (list_all (λ e.
        is_point (sizes tuning.now.grid.now.params) e.point) entries.now) }
    ensures { OnOk result (out.new
        ≡ out.old ++ numbered (entry_line tuning.now.grid.now.params tuning.now.arrays.now) 1 entries.now) }
{
    for i in 0..entries.len() {
        put_entry(alloc, out, tuning, i as u64 + 1, &entries[i])?;
    }
    Ok(())
}

fn put_cost(out: &mut Text, cost: Option<u64>) -> Result<(), AllocError>
    ensures { OnOk result (out.new ≡ out.old ++ cost_text cost) }
{
    match cost {
        None => out.append(b"top"),
        Some(cost) => put_number(out, cost),
    }
}

/// Adds the line of rank `k`, counted from 1.
#[tactic(auto, unfolding(crate::specs::Sessions::rank_line))]
fn put_rank(
    alloc: Global,
    out: &mut Text,
    grid: &Grid,
    k: u64,
    rank: &RankLine,
) -> Result<(), AllocError>
    requires { IsTrue (is_point (sizes grid.now.params) rank.now.point) }
    ensures { OnOk result (out.new ≡ out.old ++ rank_line grid.now.params k rank.now) }
{
    out.append(b"rank ")?;
    put_number(out, k)?;
    out.append(b" place ")?;
    put_number(out, u64::from(rank.place))?;
    out.append(b" at ")?;
    put_point(alloc, out, grid, rank.point.as_slice())?;
    out.append(b" cost ")?;
    put_cost(out, rank.cost)?;
    out.append(b"\n")
}

/// Adds the lines of the ranks, counted from 1.
fn put_ranks(
    alloc: Global,
    out: &mut Text,
    grid: &Grid,
    ranks: &[RankLine],
) -> Result<(), AllocError>
    requires { IsTrue (list_all (λ r. is_point (sizes grid.now.params) r.point) ranks.now) }
    ensures { OnOk result (out.new ≡ out.old ++ numbered (rank_line grid.now.params) 1 ranks.now) }
{
    for i in 0..ranks.len() {
        put_rank(alloc, out, grid, i as u64 + 1, &ranks[i])?;
    }
    Ok(())
}

/// Adds the point of a grid that is used in place of another one.
fn put_nearest(
    alloc: Global,
    out: &mut Text,
    grid: &Grid,
    conditions: &[Aff],
    point: &[u32],
) -> Result<(), AllocError>
    requires conditions { All (λ row. length row.coefs ≡ length grid.now.params) conditions.now }
    requires point { IsTrue (is_point (sizes grid.now.params) point.now) }
    ensures { OnOk result (out.new
        ≡ out.old ++ nearest_text grid.now.params (nearest grid.now.params conditions.now point.now)) }
{
    match nearest(alloc, grid, conditions, point)? {
        None => Ok(()),
        Some(used) => {
            out.append(b" used ")?;
            put_point(alloc, out, grid, used.as_slice())
        }
    }
}

/// Adds the admissible point that is used where the point isn't admissible.
fn put_used(
    alloc: Global,
    out: &mut Text,
    tuning: &Tuning<'_>,
    point: &[u32],
) -> Result<(), AllocError>
    requires conditions { All (λ row. length row.coefs
        ≡ length tuning.now.grid.now.params) tuning.now.conditions.now }
    requires point { IsTrue (is_point (sizes tuning.now.grid.now.params) point.now) }
    ensures { OnOk result (out.new
        ≡ out.old ++ used_text tuning.now.grid.now.params tuning.now.conditions.now point.now) }
{
    if is_admissible(alloc, tuning.grid, tuning.conditions, point)? {
        return Ok(());
    }
    put_nearest(alloc, out, tuning.grid, tuning.conditions, point)
}

fn put_best_point(
    alloc: Global,
    out: &mut Text,
    tuning: &Tuning<'_>,
    best: &BestLine,
) -> Result<(), AllocError>
    requires conditions { All (λ row. length row.coefs
        ≡ length tuning.now.grid.now.params) tuning.now.conditions.now }
    requires point { IsTrue (is_point (sizes tuning.now.grid.now.params) best.now.point) }
    ensures { OnOk result (out.new
        ≡ out.old ++ point_line tuning.now.grid.now.params tuning.now.conditions.now best.now) }
{
    let point = best.point.as_slice();
    out.append(b"best at ")?;
    put_point(alloc, out, tuning.grid, point)?;
    put_used(alloc, out, tuning, point)?;
    out.append(b" cost ")?;
    put_number(out, best.cost)?;
    out.append(b"\n")
}

/// Adds the line of the best point: `best at (3,4) cost 42`, or `best none`.
pub fn put_best(
    alloc: Global,
    out: &mut Text,
    tuning: &Tuning<'_>,
    best: &Option<BestLine>,
) -> Result<(), AllocError>
    requires conditions { All (λ row. length row.coefs
        ≡ length tuning.now.grid.now.params) tuning.now.conditions.now }
    requires point { IsTrue (best_inside tuning.now.grid.now.params best.now) }
    ensures { OnOk result (out.new
        ≡ out.old ++ best_line tuning.now.grid.now.params tuning.now.conditions.now best.now) }
{
    match best {
        None => out.append(b"best none\n"),
        Some(best) => put_best_point(alloc, out, tuning, best),
    }
}

#[tactic(auto, unfolding(crate::specs::Sessions::head_line))]
fn put_head(
    out: &mut Text,
    name: &Text,
    entries: u64,
    steps: u64,
    phase: Phase,
) -> Result<(), AllocError>
    ensures { OnOk result (out.new ≡ out.old ++ head_line name.now entries steps phase) }
{
    out.append(b"session ")?;
    out.append(name.as_bytes())?;
    out.append(b" entries ")?;
    put_number(out, entries)?;
    out.append(b" steps ")?;
    put_number(out, steps)?;
    out.append(b" phase ")?;
    put_phase(out, phase)?;
    out.append(b"\n")
}

/// Adds the lines of a session: its name with the number of entries, the steps and the round of its
/// search; each entry; each rank; and the best point. Each point has an index of the grid for each
/// parameter, and each condition a coefficient.
#[tactic(auto, unfolding(crate::specs::Sessions::part_lines))]
pub fn put_session(
    alloc: Global,
    out: &mut Text,
    tuning: &Tuning<'_>,
    part: &SessionPart,
) -> Result<(), AllocError>
    requires conditions { All (λ row. length row.coefs
        ≡ length tuning.now.grid.now.params) tuning.now.conditions.now }
    requires inside { IsTrue (is_inside tuning.now.grid.now.params part.now) }
    ensures { OnOk result (out.new ≡ out.old ++ session_lines tuning.now part.now) }
{
    let entries = part.entries.as_slice();
    put_head(
        out,
        tuning.name,
        entries.len() as u64,
        part.steps,
        part.phase,
    )?;
    put_entries(alloc, out, tuning, entries)?;
    put_ranks(alloc, out, tuning.grid, part.ranks.as_slice())?;
    put_best(alloc, out, tuning, &part.best)
}
