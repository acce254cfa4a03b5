//! Stretches of a shared loop in which the same pieces have values.

ghost use Rattle.std.specs.Prelude.{◌≡◌, ◌⊎◌, ◌<◌, ◌≤◌, ◌≤ℤ◌, ◌<ℤ◌, length, IfOk, IsTrue, ◌↔◌};
ghost use Rattle.ch_affine.specs.Rows.{IsBox};
ghost use Rattle.ch_timed.specs.Members.{Each};
ghost use Rattle.ch_codegen.specs.Cuts.{IsSteady, actives, is_active};
ghost use Rattle.ch_codegen.specs.Parts.{Widens};

use crate::fixed::lesser;
use crate::runs::joined;
use ch_affine::{List, Range};
use ch_space::Piece;
use ch_space::copies::copied_piece;
use std::alloc::{AllocError, Global};

/// The least range that has all of these.
pub(crate) fn whole_range(ranges: &[Range]) -> Range
    requires some { 0 < length ranges.now }
    requires boxes { Each IsBox ranges.now }
    ensures fits { IsBox result }
    ensures covers { Each (λ r. Widens r result) ranges.now }
{
    let mut whole = ranges[0];
    for range in ranges {
        whole = joined(whole, *range);
    }
    whole
}

/// How far a stretch from `low` goes, at most to `high`, before a range begins or ends.
fn end_by(range: Range, low: i64, high: i64) -> i64
    requires { low ≤ℤ high }
    ensures after { low ≤ℤ result }
    ensures before { result ≤ℤ high }
    ensures steady { IsSteady low result range }
{
    if low < range.low {
        lesser(high, range.low - 1)
    } else if low <= range.high {
        lesser(high, range.high)
    } else {
        high
    }
}

/// How far a stretch from `low` goes, at most to `last`, before some range begins or ends.
pub(crate) fn cut_end(ranges: &[Range], low: i64, last: i64) -> i64
    requires { low ≤ℤ last }
    ensures after { low ≤ℤ result }
    ensures before { result ≤ℤ last }
    ensures steady { Each (IsSteady low result) ranges.now }
{
    let mut high = last;
    for range in ranges {
        high = end_by(*range, low, high);
    }
    high
}

fn is_active(range: Range, low: i64) -> bool
    ensures { result ≡ is_active low range }
{
    range.low <= low && low <= range.high
}

fn count_active(ranges: &[Range], low: i64) -> usize {
    ranges
        .iter()
        .filter(|range| is_active(**range, low))
        .count()
}

/// How many statements there are, if each stretch has one for each piece with a range there; at
/// least one.
pub(crate) fn statements_cut(ranges: &[Range]) -> usize
    requires some { 0 < length ranges.now }
    requires boxes { Each IsBox ranges.now }
    ensures { 1 ≤ result }
{
    let whole = whole_range(ranges);
    let mut count = 0usize;
    let mut low = whole.low;
    while low <= whole.high {
        let high = cut_end(ranges, low, whole.high);
        count = count.saturating_add(count_active(ranges, low));
        low = high + 1;
    }
    count.max(1)
}

/// The pieces whose ranges have this number.
pub(crate) fn active_pieces(
    alloc: Global,
    run: &[Piece],
    ranges: &[Range],
    low: i64,
) -> Result<List<Piece>, AllocError>
    requires { length ranges.now ≡ length run.now }
    ensures { IfOk result (λ it. it ≡ actives low run.now ranges.now) }
{
    let mut active = List::new(alloc);
    for k in 0..run.len() {
        if is_active(ranges[k], low) {
            active.push(copied_piece(alloc, &run[k])?)?;
        }
    }
    Ok(active)
}
