ghost use Rattle.std.specs.Prelude.{◌≡◌, ◌≤◌, ◌<◌, length, IsTrue, MatchOption, pos, false};
ghost use Rattle.std.specs.List.{All};
ghost use Rattle.ch_poly.specs.Boxes.{IsBoxed, Inside, widths};
ghost use Rattle.ch_poly.specs.Goals.{Reaches, Meets, Keeps, IsEmpty};

use crate::equality::narrow_by_equalities;
use crate::goal::Goal;
use crate::mix::narrow_mixed;
use crate::narrow::narrow;
use crate::search::first_open;
use crate::simplex::multipliers;
use ch_affine::Aff;

/// Narrows by equalities that follow from the rows, and by the sum of the rows that bounds variable
/// `k` best from below, or contradicts the box. Without enough space it changes nothing.
fn narrow_best(
    rows: &[Aff],
    k: usize,
    lows: &mut [i64],
    highs: &mut [i64],
    space: &mut [i64],
) -> Option<bool>
    requires same { All (λ f. length f.coefs ≡ length lows.old) rows.now }
    requires boxed { IsBoxed lows.old highs.old }
    requires within { k < length lows.old }
    ensures boxed { IsBoxed lows.new highs.new }
    ensures inside { Inside lows.old highs.old lows.new highs.new }
    ensures keeps { MatchOption result (IsEmpty (Reaches (pos 0) rows.now) lows.old highs.old) (λ changed. Keeps (Reaches (pos 0) rows.now) lows.old highs.old lows.new highs.new) }
    ensures narrower { widths lows.new highs.new ≤ widths lows.old highs.old }
{
    let Some(by_equalities) = narrow_by_equalities(rows, k, lows, highs, space) else {
        return None;
    };
    let count = lows.len();
    if space.len() < count {
        return Some(by_equalities);
    }
    let (sums, rest) = space.split_at_mut(count);
    if !multipliers(rows, lows, highs, k, rest) {
        return Some(by_equalities);
    }
    let Some(by_sum) = narrow_mixed(rows, rest, sums, lows, highs) else {
        return None;
    };
    Some(by_equalities | by_sum)
}

/// Narrows the ranges by each row and top, and then by a sum of rows for the first variable from
/// `from` on that is still open. False where no point of the box meets the goal.
pub fn tighten(
    goal: &Goal,
    from: usize,
    lows: &mut [i64],
    highs: &mut [i64],
    space: &mut [i64],
) -> bool
    requires same_rows { All (λ f. length f.coefs ≡ length lows.old) goal.now.rows.now }
    requires same_tops { All (λ f. length f.coefs ≡ length lows.old) goal.now.tops.now }
    requires boxed { IsBoxed lows.old highs.old }
    requires from { from ≤ length lows.old }
    ensures boxed { IsBoxed lows.new highs.new }
    ensures inside { Inside lows.old highs.old lows.new highs.new }
    ensures narrower { widths lows.new highs.new ≤ widths lows.old highs.old }
    ensures keeps { IsTrue result
        → Keeps (Meets goal.now.rows.now goal.now.tops.now goal.now.bound) lows.old highs.old lows.new highs.new }
    ensures empty { result ≡ false
        → IsEmpty (Meets goal.now.rows.now goal.now.tops.now goal.now.bound) lows.old highs.old }
{
    if !narrow(goal, lows, highs) {
        return false;
    }
    let k = first_open(lows, highs, from);
    if k == lows.len() {
        return true;
    }
    match narrow_best(goal.rows, k, lows, highs, space) {
        None => false,
        Some(false) => true,
        Some(true) => narrow(goal, lows, highs),
    }
}
