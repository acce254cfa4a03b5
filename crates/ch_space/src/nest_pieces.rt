ghost use Rattle.std.specs.Prelude.{◌≡◌, ◌≤◌, ◌+◌, [], ◌∷◌, ◌++◌, length, IfOk, OnOk};
ghost use Rattle.ch_nest.specs.Limits.{deepest};
ghost use Rattle.ch_space.specs.Built.{piece_of};
ghost use Rattle.ch_space.specs.Fitting.{capped, Adds, AreBelow, IsBelow, LevelsFit, Places};
ghost use Rattle.ch_space.specs.Statements.{at_numbers, findings, findings_of};
ghost use Rattle.ch_space.specs.Statements.{instances_of, loops, statement};

use crate::copies::copied_body;
use crate::level::{Around, inside_condition, inside_loop, loops_in, places_inside};
use crate::piece::Piece;
use crate::rows::{boxes_of, hidden_in, rows_of, units};
use crate::turns::turns_up_to;
use ch_affine::{List, System};
use ch_nest::{Body, Item};
use ch_timed::Label;
use std::alloc::{AllocError, Global};

/// The pieces that were found so far, and the number of instances of each.
#[derive(Debug, Drop)]
pub(crate) struct Found {
    pub(crate) pieces: List<Piece>,
    pub(crate) counts: List<u64>,
}

/// The piece of a statement: its levels are the values of its loops, and each loop with a step
/// above 1 has a hidden value.
fn piece_of(
    alloc: Global,
    label: u32,
    body: &Body,
    around: &[Around],
    places: &[u32],
) -> Result<Piece, AllocError>
    requires fit { LevelsFit [] around.now }
    requires few { loops around.now ≤ deepest }
    ensures { IfOk result (λ piece.
        piece ≡ piece_of (statement label body.now around.now places.now)) }
{
    let levels = loops_in(around);
    let hidden = hidden_in(around);
    let rows = rows_of(alloc, around, levels, levels + hidden)?;
    let boxes = boxes_of(alloc, around)?;
    let origin = units(alloc, levels)?;
    let body = copied_body(alloc, body)?;
    let places = List::from_slice(alloc, places)?;
    Ok(Piece {
        label: Label::Stmt(label),
        body,
        levels: levels as u32,
        hidden: hidden as u32,
        system: System {
            vars: (levels + hidden) as u32,
            rows,
            boxes,
        },
        origin,
        places,
    })
}

/// Adds the piece of a statement, if the statement is executed at all.
#[tactic(auto, using(crate::proofs::FindSteps::adds_never, crate::proofs::FindSteps::adds_one))]
fn add_statement(
    alloc: Global,
    label: u32,
    body: &Body,
    around: &[Around],
    places: &[u32],
    found: &mut Found,
) -> Result<(), AllocError>
    requires fit { LevelsFit [] around.now }
    requires few { loops around.now ≤ deepest }
    ensures { OnOk result
        (Adds (statement label body.now around.now places.now ∷ []) found.old found.new) }
{
    let count = turns_up_to(around, &[]);
    if count == 0 {
        return Ok(());
    }
    let piece = piece_of(alloc, label, body, around, places)?;
    found.pieces.push(piece)?;
    found.counts.push(count)?;
    Ok(())
}

/// Adds the pieces of the statements of the items of a body, which stand at its places from `first`
/// on, and gives the place after them.
#[cycle(find)]
#[tactic(auto, using(crate::proofs::FindSteps::places_none, crate::proofs::FindSteps::places_done))]
pub(crate) fn find_items(
    alloc: Global,
    items: &[Item],
    around: &[Around],
    places: &[u32],
    first: u32,
    found: &mut Found,
) -> Result<u32, AllocError>
    requires below { AreBelow items.now around.now first }
    ensures { IfOk result (λ next. Places (findings items.now) around.now places.now first next
        found.old found.new) }
{
    let mut place = first;
    for item in items {
        place = find_item(alloc, item, around, places, place, found)?;
    }
    Ok(place)
}

#[cycle(find)]
#[tactic(auto, using(crate::proofs::FindSteps::places_assign, crate::proofs::FindSteps::places_loop, crate::proofs::FindSteps::places_if))]
fn find_item(
    alloc: Global,
    item: &Item,
    around: &[Around],
    places: &[u32],
    place: u32,
    found: &mut Found,
) -> Result<u32, AllocError>
    requires below { IsBelow item.now around.now place }
    ensures { IfOk result (λ next. Places (findings_of item.now) around.now places.now place next
        found.old found.new) }
{
    match item {
        Item::Assign { label, body } => {
            let here = places_inside(alloc, places, place)?;
            add_statement(alloc, *label, body, around, here.as_slice(), found)?;
            Ok(place + 1)
        }
        Item::Loop {
            lows,
            highs,
            step,
            items,
        } => {
            let here = places_inside(alloc, places, place)?;
            let inside = inside_loop(alloc, around, lows.as_slice(), highs.as_slice(), *step)?;
            find_items(
                alloc,
                items.as_slice(),
                inside.as_slice(),
                here.as_slice(),
                0,
                found,
            )?;
            Ok(place + 1)
        }
        // Its items stand in its place, in order.
        Item::If { row, items } => {
            let inside = inside_condition(alloc, around, row)?;
            find_items(
                alloc,
                items.as_slice(),
                inside.as_slice(),
                places,
                place,
                found,
            )
        }
    }
}
