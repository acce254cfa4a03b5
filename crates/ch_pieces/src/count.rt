//! How many instances a piece has. A walk over the values of its levels takes no memory for them;
//! where a value has no point, the least greater one that has some is found at once, however far it
//! is.

ghost use Rattle.std.specs.Prelude.{◌≡◌, ◌≤◌, ◌<◌, ◌^◌, ◌∷◌, [], ◌++◌};
ghost use Rattle.std.specs.Prelude.{length, map, IfOk, IsTrue, OnOk};
ghost use Rattle.ch_poly.specs.Points.{begins_some};
ghost use Rattle.ch_pieces.specs.Counting.{IsLow, IsNextValue, IsRest, count_from, cut};
ghost use Rattle.ch_space.specs.Following.{single, with_boxes};
ghost use Rattle.ch_space.specs.Pieces.{instances};

use ch_affine::{List, Range, System, copied_forms};
use ch_poly::{Room, has_point, least_point};
use ch_space::Piece;
use std::alloc::{AllocError, Global};

/// How many instances the piece has.
pub fn count_instances(alloc: Global, piece: &Piece) -> Result<u64, AllocError>
    requires levels { piece.now.levels ≤ piece.now.system.vars }
    requires few { length (instances piece.now) < 2 ^ 64 }
    ensures { IfOk result (λ n. n ≡ length (instances piece.now)) }
{
    let system = &piece.system;
    let mut room = Room::of(alloc, system.vars, system.rows.len())?;
    if !has_point(system, &[], &mut room) {
        return Ok(0);
    }
    let levels = piece.levels as usize;
    let mut front = List::with_capacity(alloc, levels)?;
    count_from(alloc, system, levels, &mut front, &mut room)
}

/// How many instances begin with the values of the front, with which some point begins.
fn count_from(
    alloc: Global,
    system: &System,
    levels: usize,
    front: &mut List<i64>,
    room: &mut Room,
) -> Result<u64, AllocError>
    requires levels { levels ≤ system.now.vars }
    requires few_values { length front.old ≤ levels }
    requires begins { IsTrue (begins_some system.now front.old) }
    requires room_vars { system.now.vars ≤ room.old.vars }
    requires room_rows { length system.now.rows ≤ room.old.rows }
    requires few { count_from system.now levels front.old < 2 ^ 64 }
    ensures count { IfOk result (λ n. n ≡ count_from system.now levels front.old) }
    ensures front { OnOk result (front.new ≡ front.old) }
    ensures room { room.new ≡ room.old }
{
    if front.len() == levels {
        return Ok(1);
    }
    let range = system.boxes.as_slice()[front.len()];
    let mut count = 0;
    let mut next = value_from(alloc, system, front, range.low, room)?;
    while let Some(value) = next {
        front.push(value)?;
        count += count_from(alloc, system, levels, front, room)?;
        front.pop();
        next = value_from(alloc, system, front, value + 1, room)?;
    }
    Ok(count)
}

/// The least value from this one on with which some point goes on behind the front.
fn value_from(
    alloc: Global,
    system: &System,
    front: &mut List<i64>,
    from: i64,
    room: &mut Room,
) -> Result<Option<i64>, AllocError>
    requires inner { length front.old < system.now.vars }
    requires begins { IsTrue (begins_some system.now front.old) }
    requires low { IsLow system.now.boxes (length front.old) from }
    requires room_vars { system.now.vars ≤ room.old.vars }
    requires room_rows { length system.now.rows ≤ room.old.rows }
    ensures next { IfOk result (λ next. IsNextValue system.now front.old from next) }
    ensures front { OnOk result (front.new ≡ front.old) }
    ensures room { room.new ≡ room.old }
{
    let range = system.boxes.as_slice()[front.len()];
    if from > range.high {
        return Ok(None);
    }
    if goes_on(system, front, from, room)? {
        return Ok(Some(from));
    }
    let rest = Range {
        low: from,
        high: range.high,
    };
    least_in(alloc, system, front.as_slice(), rest)
}

/// Whether some point begins with the front and then this value.
fn goes_on(
    system: &System,
    front: &mut List<i64>,
    value: i64,
    room: &mut Room,
) -> Result<bool, AllocError>
    requires inner { length front.old < system.now.vars }
    requires room_vars { system.now.vars ≤ room.old.vars }
    requires room_rows { length system.now.rows ≤ room.old.rows }
    ensures found { IfOk result (λ found. found
        ≡ begins_some system.now (front.old ++ value ∷ [])) }
    ensures front { OnOk result (front.new ≡ front.old) }
    ensures room { room.new ≡ room.old }
{
    front.push(value)?;
    let found = has_point(system, front.as_slice(), room);
    front.pop();
    Ok(found)
}

/// The least value of the range with which some point goes on behind the front, by the least point
/// of a narrower system.
fn least_in(
    alloc: Global,
    system: &System,
    front: &[i64],
    range: Range,
) -> Result<Option<i64>, AllocError>
    requires begins { IsTrue (begins_some system.now front.now) }
    requires rest { IsRest system.now.boxes (length front.now) range }
    ensures { IfOk result (λ next. IsNextValue system.now front.now range.low next) }
{
    let narrow = narrowed(alloc, system, front, range)?;
    match least_point(alloc, &narrow)? {
        None => Ok(None),
        Some(point) => Ok(Some(point.as_slice()[front.len()])),
    }
}

/// The system with its first ranges narrowed to the values of the front, and this range behind
/// them.
fn narrowed(
    alloc: Global,
    system: &System,
    front: &[i64],
    range: Range,
) -> Result<System, AllocError>
    requires begins { IsTrue (begins_some system.now front.now) }
    requires rest { IsRest system.now.boxes (length front.now) range }
    ensures { IfOk result (λ narrow.
        narrow ≡ with_boxes system.now (cut front.now range system.now.boxes)) }
{
    let rows = copied_forms(alloc, system.rows.as_slice())?;
    let boxes = cut(alloc, front, range, system.boxes.as_slice())?;
    Ok(System {
        vars: system.vars,
        rows,
        boxes,
    })
}

/// The ranges, the first of them those of the values of the front alone, and then this one.
fn cut(
    alloc: Global,
    front: &[i64],
    range: Range,
    boxes: &[Range],
) -> Result<List<Range>, AllocError>
    requires { length front.now < length boxes.now }
    ensures { IfOk result (λ narrow. narrow ≡ cut front.now range boxes.now) }
{
    let mut narrow = List::with_capacity(alloc, boxes.len())?;
    push_singles(&mut narrow, front)?;
    narrow.push(range)?;
    push_ranges(&mut narrow, &boxes[front.len() + 1..])?;
    Ok(narrow)
}

fn push_singles(ranges: &mut List<Range>, values: &[i64]) -> Result<(), AllocError>
    ensures { OnOk result (ranges.new ≡ ranges.old ++ map single values.now) }
{
    for value in values {
        ranges.push(Range {
            low: *value,
            high: *value,
        })?;
    }
    Ok(())
}

fn push_ranges(ranges: &mut List<Range>, more: &[Range]) -> Result<(), AllocError>
    ensures { OnOk result (ranges.new ≡ ranges.old ++ more.now) }
{
    for range in more {
        ranges.push(*range)?;
    }
    Ok(())
}
