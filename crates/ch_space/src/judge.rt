ghost use Rattle.std.specs.Prelude.{◌≡◌, ◌^◌, ◌≤◌, IsTrue, IfOk, OnOk};
ghost use Rattle.std.specs.Prelude.{Option, None, [], ◌∷◌, length, true};
ghost use Rattle.std.specs.List.{All};
ghost use Rattle.ch_affine.specs.Affine.{IsAtMost};
ghost use Rattle.ch_nest.specs.At.{AreAt, IsAt};
ghost use Rattle.ch_nest.specs.Limits.{deepest};
ghost use Rattle.ch_nest.specs.LoopNest.{LoopNest};
ghost use Rattle.ch_nest.specs.Shape.{body_fits};
ghost use Rattle.ch_nest.specs.Sound.{is_sound, item_work, items_work};
ghost use Rattle.ch_space.specs.Judged.{judgement, leaving, Judges};
ghost use Rattle.ch_space.specs.JudgingWalk.{instance, item_refusal, items_refusal, IsNear, Walks};

use crate::accesses::{accesses_before, first_leaving};
use crate::error::SpaceError;
use ch_affine::List;
use ch_nest::{
    Body, Item, Nest, as_number, body_inside, extended, greatest_low, is_met, is_sound, least_high,
    next_value,
};
use ch_timed::{Identity, Label};
use std::alloc::{AllocError, Global};

/// The most turns and instances of a nest.
const MOST_WORK: u32 = 1048576;

/// A walk through a nest in program order: how many turns and instances it may still take, and the
/// first refusal that it met.
#[derive(Debug, Drop)]
pub(crate) struct Walk {
    pub(crate) left: u32,
    pub(crate) found: Option<SpaceError>,
}

/// The refusal of a statement at a point, where one of its accesses leaves its array. Memory is
/// taken only there.
#[tactic(auto, using(crate::proofs::Judgings::inside_is_free, crate::proofs::Subscripted::near_small))]
fn instance_refusal(
    alloc: Global,
    nest: &Nest,
    label: u32,
    body: &Body,
    point: &[i64],
) -> Result<Option<SpaceError>, AllocError>
    requires fits { IsTrue (body_fits nest.now.arrays (length point.now) body.now) }
    requires near { IsNear point.now }
    ensures { IfOk result (λ refusal. refusal
        ≡ leaving nest.now (instance label point.now body.now)) }
{
    nest.known();
    let arrays = nest.arrays.as_slice();
    if body_inside(arrays, body, point) {
        return Ok(None);
    }
    let before = accesses_before(alloc, nest.items.as_slice(), label)?;
    match first_leaving(alloc, arrays, body, point, before)? {
        None => Ok(None),
        Some(leaving) => {
            let iters = List::from_slice(alloc, point)?;
            let first = Identity {
                label: Label::Stmt(label),
                iters,
            };
            Ok(Some(SpaceError::OutOfRange {
                first,
                access: leaving.access,
                cell: leaving.cell,
            }))
        }
    }
}

/// One instance more.
fn walk_instance(
    alloc: Global,
    nest: &Nest,
    label: u32,
    body: &Body,
    point: &[i64],
    walk: Walk,
) -> Result<Walk, SpaceError>
    requires fits { IsTrue (body_fits nest.now.arrays (length point.now) body.now) }
    requires near { IsNear point.now }
    ensures { Walks result 1 (leaving nest.now (instance label point.now body.now)) walk }
{
    let Walk { left, found } = walk;
    if left == 0 {
        return Err(SpaceError::TooMany);
    }
    match found {
        // The first one counts.
        Some(refusal) => Ok(Walk {
            left: left - 1,
            found: Some(refusal),
        }),
        None => {
            let found = instance_refusal(alloc, nest, label, body, point)?;
            Ok(Walk {
                left: left - 1,
                found,
            })
        }
    }
}

/// Takes one turn from what is left.
fn turned(walk: Walk) -> Result<Walk, SpaceError>
    ensures { Walks result 1 None walk }
{
    if walk.left == 0 {
        return Err(SpaceError::TooMany);
    }
    let Walk { left, found } = walk;
    Ok(Walk {
        left: left - 1,
        found,
    })
}

/// Goes through what the items do at a point.
#[cycle(judging)]
fn walk_items(
    alloc: Global,
    nest: &Nest,
    items: &[Item],
    point: &[i64],
    walk: Walk,
) -> Result<Walk, SpaceError>
    requires at { AreAt nest.now.arrays items.now point.now }
    requires shallow { length point.now ≤ deepest }
    ensures { Walks result (items_work items.now point.now)
        (items_refusal nest.now items.now point.now) walk }
{
    let mut walk = walk;
    for item in items {
        walk = walk_item(alloc, nest, item, point, walk)?;
    }
    Ok(walk)
}

#[cycle(judging)]
fn walk_item(
    alloc: Global,
    nest: &Nest,
    item: &Item,
    point: &[i64],
    walk: Walk,
) -> Result<Walk, SpaceError>
    requires at { IsAt nest.now.arrays item.now point.now }
    requires shallow { length point.now ≤ deepest }
    ensures { Walks result (item_work item.now point.now)
        (item_refusal nest.now item.now point.now) walk }
{
    match item {
        Item::Assign { label, body } => walk_instance(alloc, nest, *label, body, point, walk),
        Item::Loop {
            lows,
            highs,
            step,
            items,
        } => {
            let mut value = greatest_low(lows.as_slice(), point);
            let high = least_high(highs.as_slice(), point);
            let mut walk = walk;
            'turns: while value <= high {
                let inner = extended(point, as_number(value));
                let turn = turned(walk)?;
                walk = walk_items(
                    alloc,
                    nest,
                    items.as_slice(),
                    &inner[..point.len() + 1],
                    turn,
                )?;
                value = next_value(value, *step);
            }
            Ok(walk)
        }
        // A condition takes no turn of its own.
        Item::If { row, items } => {
            if !is_met(row, point) {
                return Ok(walk);
            }
            walk_items(alloc, nest, items.as_slice(), point, walk)
        }
    }
}

/// Judges whether a nest can be run. A nest is refused that takes more than 1,048,576 turns and
/// instances; otherwise it is refused for the first instance in program order with an access that
/// leaves its array, by the first such access.
pub fn judged(alloc: Global, nest: &Nest) -> Result<(), SpaceError>
    ensures exact { Judges result (judgement nest.now) }
    ensures sound { OnOk result (IsTrue (is_sound nest.now)) }
{
    // Most nests stay inside their arrays over the whole boxes of their loops, which `is_sound`
    // looks at first.
    if is_sound(nest) {
        return Ok(());
    }
    let start = Walk {
        left: MOST_WORK,
        found: None,
    };
    let end = walk_items(alloc, nest, nest.items.as_slice(), &[], start)?;
    match end.found {
        None => Ok(()),
        Some(refusal) => Err(refusal),
    }
}

/// A nest has no refusal exactly if it is sound.
pub fn judgement_is_sound()
    ensures none { (nest : LoopNest) → judgement nest ≡ None → is_sound nest ≡ true }
    ensures sound { (nest : LoopNest) → is_sound nest ≡ true → judgement nest ≡ None }
{}
