ghost use Rattle.std.specs.Prelude.{◌≡◌, ◌≤◌, ◌<◌, ◌^◌, ◌+ℤ◌, ◌*ℤ◌, ◌≤ℤ◌, ◌-ℤ◌, pos};
ghost use Rattle.std.specs.Prelude.{length, IsTrue, IfSome, MatchOption, Some, true};
ghost use Rattle.std.specs.List.{All};
ghost use Rattle.ch_affine.specs.Affine.{IsAtMost, form};
ghost use Rattle.ch_poly.specs.Boxes.{IsBoxed, Inside, widths};
ghost use Rattle.ch_poly.specs.Goals.{IsAtLeast, Reaches, Keeps, IsEmpty};
ghost use Rattle.ch_poly.specs.Mixes.{IsAdded, IsImplied};

use crate::cut::cut_all;
use crate::peak::most;
use crate::simplex::factor;
use ch_affine::wide::{plus, scaled};
use ch_affine::{Aff, LARGEST_COEFFICIENT};

fn added(sum: i64, factor: i64, coef: i64) -> i128
    requires { IsAtMost (2 ^ 60) coef }
    ensures { result ≡ sum +ℤ factor *ℤ coef }
{
    plus(sum as i128, scaled(factor, coef))
}

fn narrowed(value: i128) -> i64
    requires { IsAtMost (2 ^ 60) value }
    ensures { result ≡ value }
{
    value as i64
}

/// Adds so many times the row. False where a number would pass 2^60.
fn add_row(factor: i64, row: &[i64], sums: &mut [i64]) -> bool
    requires same { length row.now ≡ length sums.old }
    requires row_small { All (IsAtMost (2 ^ 60)) row.now }
    requires sums_small { All (IsAtMost (2 ^ 60)) sums.old }
    ensures small { All (IsAtMost (2 ^ 60)) sums.new }
    ensures added { IsTrue result → IsAdded factor row.now sums.old sums.new }
{
    for k in 0..row.len() {
        let sum = added(sums[k], factor, row[k]);
        if sum.unsigned_abs() > LARGEST_COEFFICIENT as u128 {
            return false;
        }
        sums[k] = narrowed(sum);
    }
    true
}

fn lessened(bound: i128, factor: i64, constant: i64) -> Option<i128>
    requires { IsAtMost (2 ^ 60) constant }
    ensures { IfSome result (λ less. less ≡ bound -ℤ factor *ℤ constant) }
{
    bound.checked_sub(scaled(factor, constant))
}

fn clear(sums: &mut [i64])
    ensures small { All (IsAtMost 0) sums.new }
{
    for k in 0..sums.len() {
        sums[k] = 0;
    }
}

/// Leaves the coefficients of the sum of the rows, each times its factor where that is above 0, and
/// answers the bound that the sum reaches wherever the rows hold. None where a number is too large.
pub fn mix(rows: &[Aff], space: &[i64], sums: &mut [i64]) -> Option<i128>
    requires same { All (λ f. length f.coefs ≡ length sums.old) rows.now }
    ensures small { All (IsAtMost (2 ^ 60)) sums.new }
    ensures implied { IfSome result (λ bound. IsImplied rows.now (form sums.new (pos 0)) bound) }
{
    let vars = sums.len();
    clear(sums);
    let mut bound = 0i128;
    for i in 0..rows.len() {
        let factor = factor(vars, rows.len(), space, i);
        if factor <= 0 {
            continue;
        }
        let row = &rows[i];
        if !add_row(factor, row.coefs.as_slice(), sums) {
            return None;
        }
        let Some(less) = lessened(bound, factor, row.constant) else {
            return None;
        };
        bound = less;
    }
    Some(bound)
}

/// Narrows the ranges to where the form of these coefficients can have a value of at least `bound`.
pub fn narrow_by(coefs: &[i64], bound: i128, lows: &mut [i64], highs: &mut [i64]) -> Option<bool>
    requires same { length coefs.now ≡ length lows.old }
    requires small { All (IsAtMost (2 ^ 60)) coefs.now }
    requires boxed { IsBoxed lows.old highs.old }
    ensures boxed { IsBoxed lows.new highs.new }
    ensures inside { Inside lows.old highs.old lows.new highs.new }
    ensures keeps { MatchOption result (IsEmpty (IsAtLeast bound (form coefs.now (pos 0))) lows.old highs.old) (λ changed. Keeps (IsAtLeast bound (form coefs.now (pos 0))) lows.old highs.old lows.new highs.new) }
    ensures narrower { widths lows.new highs.new ≤ widths lows.old highs.old }
{
    let greatest = most(0, coefs, lows, highs);
    if greatest < bound {
        return None;
    }
    let slack = greatest.abs_diff(bound);
    Some(cut_all(coefs, slack, lows, highs))
}

/// The same by the sum of the rows, each times its factor.
pub fn narrow_mixed(
    rows: &[Aff],
    space: &[i64],
    sums: &mut [i64],
    lows: &mut [i64],
    highs: &mut [i64],
) -> Option<bool>
    requires same { All (λ f. length f.coefs ≡ length lows.old) rows.now }
    requires sums { length sums.old ≡ length lows.old }
    requires boxed { IsBoxed lows.old highs.old }
    ensures boxed { IsBoxed lows.new highs.new }
    ensures inside { Inside lows.old highs.old lows.new highs.new }
    ensures keeps { MatchOption result (IsEmpty (Reaches (pos 0) rows.now) lows.old highs.old) (λ changed. Keeps (Reaches (pos 0) rows.now) lows.old highs.old lows.new highs.new) }
    ensures narrower { widths lows.new highs.new ≤ widths lows.old highs.old }
{
    let Some(bound) = mix(rows, space, sums) else {
        return Some(false);
    };
    narrow_by(sums, bound, lows, highs)
}
