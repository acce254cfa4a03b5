ghost use Rattle.std.specs.Prelude.{◌≡◌, ◌≤◌, ◌^◌, ◌+ℤ◌, ◌*ℤ◌, ◌-ℤ◌, ◌≤ℤ◌, ◌+◌, ◌<◌, ◌*◌, ◌/◌, ℤ};
ghost use Rattle.std.specs.Prelude.{pos, unsigned_abs, length, IsTrue, MatchOption, true, false};
ghost use Rattle.std.specs.List.{All};
ghost use Rattle.ch_affine.specs.Affine.{IsAtMost, value};
ghost use Rattle.ch_poly.specs.Boxes.{IsBoxed, at, Inside, widths};
ghost use Rattle.ch_poly.specs.Cutting.{KeepsNumber, KeepsNear, IsSameBut};

use ch_affine::Range;

/// The part of a range where a coefficient's term is at most `slack` below its greatest value. It
/// is never empty, and nothing is divided where the whole range is left.
fn cut(coef: i64, slack: u128, range: Range) -> Range
    requires coef_small { IsAtMost (2 ^ 60) coef }
    requires low_small { IsAtMost (2 ^ 54) range.low }
    requires high_small { IsAtMost (2 ^ 54) range.high }
    requires some { range.low ≤ℤ range.high }
    ensures low { range.low ≤ℤ result.low }
    ensures high { result.high ≤ℤ range.high }
    ensures some { result.low ≤ℤ result.high }
    ensures keeps { KeepsNumber coef slack range.low range.high result.low result.high }
{
    let width = range.high.abs_diff(range.low);
    let size = coef.unsigned_abs();
    if slack >= size as u128 * width as u128 {
        return range;
    }
    let spare = quotient(slack, size);
    if coef > 0 {
        Range {
            low: lower(range.high, spare),
            high: range.high,
        }
    } else {
        Range {
            low: range.low,
            high: higher(range.low, spare),
        }
    }
}

fn quotient(slack: u128, size: u64) -> u64
    requires { slack < size * 2 ^ 56 }
    ensures { result ≡ slack / size }
{
    match u64::try_from(slack) {
        Ok(small) => small / size,
        Err(_) => (slack / size as u128) as u64,
    }
}

fn lower(high: i64, spare: u64) -> i64
    requires small { IsAtMost (2 ^ 54) high }
    requires few { spare ≤ 2 ^ 56 }
    ensures { result +ℤ pos spare ≡ high }
{
    high - spare as i64
}

fn higher(low: i64, spare: u64) -> i64
    requires small { IsAtMost (2 ^ 54) low }
    requires few { spare ≤ 2 ^ 56 }
    ensures { result ≡ low +ℤ pos spare }
{
    low + spare as i64
}

/// Cuts the range at `k`, and says whether it is another now.
fn cut_at(coef: i64, slack: u128, lows: &mut [i64], highs: &mut [i64], k: usize) -> bool
    requires coef_small { IsAtMost (2 ^ 60) coef }
    requires boxed { IsBoxed lows.old highs.old }
    requires inside { k < length lows.old }
    ensures boxed { IsBoxed lows.new highs.new }
    ensures inside { Inside lows.old highs.old lows.new highs.new }
    ensures low_others { IsSameBut k lows.old lows.new }
    ensures high_others { IsSameBut k highs.old highs.new }
    ensures keeps { KeepsNumber coef slack (at lows.old k) (at highs.old k) (at lows.new k) (at highs.new k) }
    ensures narrower { widths lows.new highs.new ≤ widths lows.old highs.old }
    ensures changed { IsTrue result → widths lows.new highs.new < widths lows.old highs.old }
{
    let low = lows[k];
    let high = highs[k];
    let range = cut(coef, slack, Range { low, high });
    lows[k] = range.low;
    highs[k] = range.high;
    is_narrower(range, low, high)
}

fn is_narrower(range: Range, low: i64, high: i64) -> bool
    requires low { low ≤ℤ range.low }
    requires some { range.low ≤ℤ range.high }
    requires high { range.high ≤ℤ high }
    ensures { IsTrue result → unsigned_abs (range.high -ℤ range.low) < unsigned_abs (high -ℤ low) }
{
    range.low != low || range.high != high
}

/// Cuts each range to the numbers where the row's term is at most `slack` below its greatest value,
/// and says whether one is another now.
pub fn cut_all(coefs: &[i64], slack: u128, lows: &mut [i64], highs: &mut [i64]) -> bool
    requires same { length coefs.now ≡ length lows.old }
    requires coefs_small { All (IsAtMost (2 ^ 60)) coefs.now }
    requires boxed { IsBoxed lows.old highs.old }
    ensures boxed { IsBoxed lows.new highs.new }
    ensures inside { Inside lows.old highs.old lows.new highs.new }
    ensures keeps { KeepsNear coefs.now slack lows.old highs.old lows.new highs.new }
    ensures narrower { widths lows.new highs.new ≤ widths lows.old highs.old }
    ensures changed { IsTrue result → widths lows.new highs.new < widths lows.old highs.old }
{
    let mut changed = false;
    for k in 0..coefs.len() {
        if cut_at(coefs[k], slack, lows, highs, k) {
            changed = true;
        }
    }
    changed
}
