//! The searches of the deck that is made from a number.
ghost use Rattle.std.specs.Prelude.{◌≡◌, ◌<◌, ◌++◌, IfOk, IsTrue, OnOk};
ghost use Rattle.ch_demo.specs.Generated.{count_of, generated, session_of, sizes_tried, two_tiles};
ghost use Rattle.ch_demo.specs.Summaries.{IsDemoText, last_line, summary_line};
ghost use Rattle.ch_report.specs.Sessions.{is_inside};
ghost use Rattle.ch_search.specs.Parts.{AreInside, ArePartsOf, IsPart};
ghost use Rattle.ch_search.specs.Searched.{lines_of};

use crate::generated::{count_of, fills_of, size_of, sizes_tried, turns_alone, two_tiles};
use crate::product::product;
use ch_affine::{List, Text};
use ch_grid::Grid;
use ch_judge::Subject;
use ch_print::put_number;
use ch_report::{SessionPart, Tuning, put_best};
use ch_script::Recipe;
use ch_search::searched;
use std::alloc::{AllocError, Global};

/// What the search of session `k` comes to.
fn part_of<'a>(
    alloc: Global,
    number: u32,
    k: u32,
    recipe: &'a Recipe,
    grid: &'a Grid,
) -> Result<SessionPart, AllocError>
    requires there { k < count_of number }
    requires recipe { recipe.now ≡ two_tiles }
    requires grid { grid.now.params ≡ sizes_tried }
    ensures tuned { IfOk result (λ part. IsPart (generated number) k (session_of k) part) }
    ensures inside { IfOk result (λ part. IsTrue (is_inside sizes_tried part)) }
{
    let nest = product(alloc, size_of(number, k))?;
    let fills = fills_of(alloc, number, k)?;
    let machine = turns_alone();
    let subject = Subject {
        nest: &nest,
        fills: fills.as_slice(),
        recipe,
        machine: &machine,
    };
    searched(alloc, &subject, grid, 1)
}

/// What the search of each session comes to, in their order.
fn parts_of(alloc: Global, number: u32, grid: &Grid) -> Result<List<SessionPart>, AllocError>
    requires { grid.now.params ≡ sizes_tried }
    ensures tuned { IfOk result (λ parts. ArePartsOf (generated number) parts) }
    ensures inside { IfOk result (λ parts. AreInside (generated number) parts) }
{
    let recipe = two_tiles(alloc)?;
    let mut parts = List::new(alloc);
    for k in 0..count_of(number) {
        let part = part_of(alloc, number, k, &recipe, grid)?;
        parts.push(part)?;
    }
    Ok(parts)
}

/// Adds the line of a session: its name, how many entries and steps its search has, and its best
/// point.
fn put_summary(
    alloc: Global,
    out: &mut Text,
    k: u32,
    grid: &Grid,
    part: &SessionPart,
) -> Result<(), AllocError>
    requires grid { grid.now.params ≡ sizes_tried }
    requires inside { IsTrue (is_inside sizes_tried part.now) }
    ensures { OnOk result (out.new ≡ out.old ++ summary_line (session_of k) part.now) }
{
    let mut name = Text::of(alloc, b"s")?;
    put_number(&mut name, u64::from(k))?;
    out.append(b"session ")?;
    out.append(name.as_bytes())?;
    out.append(b" entries ")?;
    put_number(out, part.entries.len() as u64)?;
    out.append(b" steps ")?;
    put_number(out, part.steps)?;
    out.append(b" ")?;
    let tuning = Tuning {
        name: &name,
        grid,
        conditions: &[],
        arrays: &[],
    };
    put_best(alloc, out, &tuning, &part.best)
}

/// Adds the lines of all sessions.
fn put_summaries(
    alloc: Global,
    out: &mut Text,
    number: u32,
    grid: &Grid,
    parts: &[SessionPart],
) -> Result<(), AllocError>
    requires grid { grid.now.params ≡ sizes_tried }
    requires inside { AreInside (generated number) parts.now }
    ensures { OnOk result (out.new
        ≡ out.old ++ lines_of summary_line (generated number).sessions parts.now) }
{
    for k in 0..count_of(number) {
        put_summary(alloc, out, k, grid, &parts[k as usize])?;
    }
    Ok(())
}

fn put_last(out: &mut Text, number: u32) -> Result<(), AllocError>
    ensures { OnOk result (out.new ≡ out.old ++ last_line number) }
{
    out.append(b"demo ")?;
    put_number(out, u64::from(number))?;
    out.append(b" sessions ")?;
    put_number(out, u64::from(count_of(number)))?;
    out.append(b"\n")
}

/// The text of `demo`: a deck of products of two matrices is made from the number, each of them is
/// tuned over two tile sizes as `search` does it, and a line is written for each session and one
/// for all.
pub fn answer(alloc: Global, number: u32) -> Result<Text, AllocError>
    ensures { IfOk result (λ text. IsDemoText number text) }
{
    let grid = sizes_tried(alloc)?;
    let parts = parts_of(alloc, number, &grid)?;
    let mut text = Text::new(alloc);
    put_summaries(alloc, &mut text, number, &grid, parts.as_slice())?;
    put_last(&mut text, number)?;
    Ok(text)
}
