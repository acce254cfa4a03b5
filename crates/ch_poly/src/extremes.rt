ghost use Rattle.std.specs.Prelude.{◌≡◌, ◌≤◌, ◌<◌, ◌^◌, ◌*◌, ◌<ℤ◌, ◌≤ℤ◌, pos, neg_ℤ};
ghost use Rattle.std.specs.Prelude.{length, map, unsigned_abs, IfOk, MatchOption};
ghost use Rattle.std.specs.List.{All};
ghost use Rattle.ch_affine.specs.Affine.{value};
ghost use Rattle.ch_poly.specs.Boxes.{IsBoxed};
ghost use Rattle.ch_poly.specs.Extremes.{HasValue, IsGreatest};
ghost use Rattle.ch_poly.specs.Goals.{Reaches, Meets, IsEmpty};
ghost use Rattle.ch_poly.specs.Points.{points, greatest_of, least_of};

use crate::goal::Goal;
use crate::opposed::any_opposed;
use crate::peak::greatest;
use crate::room::write_box;
use crate::search::search;
use crate::simplex::space_len;
use ch_affine::{Aff, Range, System};
use std::alloc::{AllocError, Global};
use std::slice;

/// The greatest value of the form, which has as many variables as the system, over the points of
/// the box at which all rows hold. None where there is none. All memory is taken before the search.
pub fn greatest_value(alloc: Global, s: &System, form: &Aff) -> Result<Option<i128>, AllocError>
    requires same { length form.now.coefs ≡ s.now.vars }
    ensures { IfOk result (λ v. v ≡ greatest_of (map (value form.now) (points s.now))) }
{
    let rows = s.rows.as_slice();
    let boxes = s.boxes.as_slice();
    if any_opposed(rows) {
        return Ok(None);
    }
    let count = boxes.len();
    let mut lows = vec![in alloc; 0i64; count]?;
    let mut highs = vec![in alloc; 0i64; count]?;
    let mut room = vec![in alloc; 0i64; 2 * count * count]?;
    let mut space = vec![in alloc; 0i64; space_len(count, rows.len())]?;
    Ok(greatest_in(
        rows,
        boxes,
        form,
        lows.as_mut_slice(),
        highs.as_mut_slice(),
        room.as_mut_slice(),
        space.as_mut_slice(),
    ))
}

/// The least value, likewise: the negative of the greatest value of the form's negative.
pub fn least_value(alloc: Global, s: &System, form: &Aff) -> Result<Option<i128>, AllocError>
    requires same { length form.now.coefs ≡ s.now.vars }
    ensures { IfOk result (λ v. v ≡ least_of (map (value form.now) (points s.now))) }
{
    let rows = s.rows.as_slice();
    let boxes = s.boxes.as_slice();
    if any_opposed(rows) {
        return Ok(None);
    }
    let turned = form.negative(alloc)?;
    let count = boxes.len();
    let mut lows = vec![in alloc; 0i64; count]?;
    let mut highs = vec![in alloc; 0i64; count]?;
    let mut room = vec![in alloc; 0i64; 2 * count * count]?;
    let mut space = vec![in alloc; 0i64; space_len(count, rows.len())]?;
    match greatest_in(
        rows,
        boxes,
        &turned,
        lows.as_mut_slice(),
        highs.as_mut_slice(),
        room.as_mut_slice(),
        space.as_mut_slice(),
    ) {
        None => Ok(None),
        Some(value) => Ok(Some(opposite(value))),
    }
}

/// Halves the range from a value that some point has to one that none passes, until they meet.
fn greatest_in(
    rows: &[Aff],
    boxes: &[Range],
    form: &Aff,
    lows: &mut [i64],
    highs: &mut [i64],
    room: &mut [i64],
    space: &mut [i64],
) -> Option<i128>
    requires same_rows { All (λ f. length f.coefs ≡ length boxes.now) rows.now }
    requires same_form { length form.now.coefs ≡ length boxes.now }
    requires boxed { IsBoxed (map (λ b. b.low) boxes.now) (map (λ b. b.high) boxes.now) }
    requires lows { length lows.old ≡ length boxes.now }
    requires highs { length highs.old ≡ length boxes.now }
    requires room { 2 * length boxes.now * length boxes.now ≤ length room.old }
    ensures { MatchOption result (IsEmpty (Reaches (pos 0) rows.now) (map (λ b.
        b.low) boxes.now) (map (λ b. b.high) boxes.now)) (λ v.
        IsGreatest (Reaches (pos 0) rows.now) form.now v (map (λ b. b.low) boxes.now) (map (λ b.
        b.high) boxes.now)) }
{
    write_box(boxes, lows, highs);
    let mut high = greatest(form, lows, highs);
    let anywhere = Goal {
        rows,
        tops: &[],
        bound: 0,
    };
    let Some(mut low) = value_found(&anywhere, form, lows, highs, room, space) else {
        return None;
    };
    while low < high {
        let middle = middle(low, high);
        write_box(boxes, lows, highs);
        let above = Goal {
            rows,
            tops: slice::from_ref(form),
            bound: middle,
        };
        match value_found(&above, form, lows, highs, room, space) {
            Some(value) => low = value,
            None => high = middle - 1,
        }
    }
    Some(low)
}

/// The form's value at some point of the box that meets the goal.
fn value_found(
    goal: &Goal,
    form: &Aff,
    lows: &mut [i64],
    highs: &mut [i64],
    room: &mut [i64],
    space: &mut [i64],
) -> Option<i128>
    requires same_rows { All (λ f. length f.coefs ≡ length lows.old) goal.now.rows.now }
    requires same_tops { All (λ f. length f.coefs ≡ length lows.old) goal.now.tops.now }
    requires same_form { length form.now.coefs ≡ length lows.old }
    requires boxed { IsBoxed lows.old highs.old }
    requires room { 2 * length lows.old * length lows.old ≤ length room.old }
    ensures { MatchOption result (IsEmpty (Meets goal.now.rows.now goal.now.tops.now goal.now.bound) lows.old highs.old) (λ v. HasValue (Meets goal.now.rows.now goal.now.tops.now goal.now.bound) form.now v lows.old highs.old) }
{
    if search(goal, 0, lows, highs, room, space) {
        Some(form.value(lows))
    } else {
        None
    }
}

/// A number above `low` and at most `high`, about halfway. The step is capped so that it fits in
/// `i128`.
fn middle(low: i128, high: i128) -> i128
    requires { low <ℤ high }
    ensures above { low <ℤ result }
    ensures within { result ≤ℤ high }
{
    let width = high.abs_diff(low);
    let step = (width - width / 2).min(1 << 126);
    low + step as i128
}

fn opposite(value: i128) -> i128
    requires { unsigned_abs value < 2 ^ 127 }
    ensures { result ≡ neg_ℤ value }
{
    -value
}
