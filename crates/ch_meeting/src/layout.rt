//! The ranges of the variables of a query.

ghost use Rattle.std.specs.Prelude.{◌≡◌, ◌≤◌, ◌++◌, ◌∷◌, [], pos, length, map, take, drop, OnOk};
ghost use Rattle.ch_meeting.specs.Placed.{cell_boxes, only, pair_boxes, turn_range, wide, wides};
ghost use Rattle.ch_space.specs.Keeps.{IsWhole};

use crate::question::TwoAccesses;
use ch_affine::{LARGEST_END, List, Range};
use ch_nest::Sub;
use ch_space::Piece;
use std::alloc::AllocError;

fn push_ranges(boxes: &mut List<Range>, more: &[Range]) -> Result<(), AllocError>
    ensures { OnOk result (boxes.new ≡ boxes.old ++ more.now) }
{
    for range in more {
        boxes.push(*range)?;
    }
    Ok(())
}

/// Adds the ranges of so many variables without a bound of their own.
pub(crate) fn push_wides(boxes: &mut List<Range>, count: usize) -> Result<(), AllocError>
    ensures { OnOk result (boxes.new ≡ boxes.old ++ wides count) }
{
    for _k in 0..count {
        boxes.push(Range {
            low: -LARGEST_END,
            high: LARGEST_END,
        })?;
    }
    Ok(())
}

/// The range of the turns of a subscript's modulus.
fn turn_range(modulus: u32) -> Range
    ensures { result ≡ turn_range modulus }
{
    if modulus == 0 {
        return Range { low: 0, high: 0 };
    }
    Range {
        low: -LARGEST_END,
        high: LARGEST_END,
    }
}

fn push_turns(boxes: &mut List<Range>, subs: &[Sub]) -> Result<(), AllocError>
    ensures { OnOk result (boxes.new ≡ boxes.old ++ map (λ s. turn_range s.modulus) subs.now) }
{
    for sub in subs {
        boxes.push(turn_range(sub.modulus))?;
    }
    Ok(())
}

/// Adds the ranges of the levels of both pieces, and then those of their hidden variables.
pub(crate) fn push_pair(
    boxes: &mut List<Range>,
    first: &Piece,
    second: &Piece,
) -> Result<(), AllocError>
    requires first { IsWhole first.now }
    requires second { IsWhole second.now }
    ensures { OnOk result (boxes.new ≡ boxes.old ++ pair_boxes first.now second.now) }
{
    let (levels, hidden) = first
        .system
        .boxes
        .as_slice()
        .split_at(first.levels as usize);
    let (others, behind) = second
        .system
        .boxes
        .as_slice()
        .split_at(second.levels as usize);
    push_ranges(boxes, levels)?;
    push_ranges(boxes, others)?;
    push_ranges(boxes, hidden)?;
    push_ranges(boxes, behind)
}

/// Adds the ranges of the iterators of both elements, of the turns of both accesses, and of the
/// variable that is 1.
pub(crate) fn push_cells(
    boxes: &mut List<Range>,
    iters: usize,
    others: usize,
    accesses: &TwoAccesses,
) -> Result<(), AllocError>
    ensures { OnOk result (boxes.new ≡ boxes.old
        ++ cell_boxes iters others accesses.now.first.now accesses.now.second.now) }
{
    push_wides(boxes, iters)?;
    push_wides(boxes, others)?;
    push_turns(boxes, accesses.first.subs.as_slice())?;
    push_turns(boxes, accesses.second.subs.as_slice())?;
    boxes.push(Range { low: 1, high: 1 })
}
