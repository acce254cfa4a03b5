ghost use Rattle.std.specs.Prelude.{◌≡◌, ◌≤◌, ◌^◌, ◌≤ℤ◌, length, IfSome, IsSome, IsTrue, ◌↔◌};
ghost use Rattle.std.specs.List.{All};
ghost use Rattle.ch_affine.specs.Affine.{IsAtMost};
ghost use Rattle.ch_affine.specs.Rows.{IsBox, IsSystem, system, holds, lies_in, all_hold};

use crate::aff::Aff;
use crate::limits::{LARGEST_END, MOST_VARIABLES};
use crate::list::List;
use std::marker::Model;

/// The numbers from `low` to `high`, both included.
#[derive(Debug, Clone, Copy, PartialEq, Eq)]
pub struct Range {
    pub low: i64,
    pub high: i64,
}

/// Affine inequalities over a box of integer points: a row holds where its value is at least 0.
///
/// There are at most 4,096 variables, and one range for each; a row has one coefficient for each;
/// and a range has its low at most its high, both of magnitude at most 2^54.
#[derive(Debug, Drop)]
pub struct System {
    pub vars: u32,
    pub rows: List<Aff>,
    pub boxes: List<Range>,
}

impl Model for System {
    ghost use Rattle.ch_affine.specs.Rows.{Rows, IsSystem};

    ghost Value = { Rows };

    ghost view = { λ s. record { vars = s.vars; rows = s.rows; boxes = s.boxes } };

    ghost invariant = { λ s. IsSystem (record { vars = s.vars; rows = s.rows; boxes = s.boxes }) };
}

impl System {
    /// The system of these parts, or None where they do not fit together or a number is too large.
    pub fn new(vars: u32, rows: List<Aff>, boxes: List<Range>) -> Option<System>
        ensures fits { IsSome result ↔ IsSystem (system vars rows boxes) }
        ensures value { IfSome result (λ s. s ≡ system vars rows boxes) }
    {
        let fits = vars <= MOST_VARIABLES
            && boxes.len() == vars as usize
            && all_of_length(rows.as_slice(), vars as usize)
            && all_boxes(boxes.as_slice());
        if !fits {
            return None;
        }
        Some(System { vars, rows, boxes })
    }

    /// Whether the point, which has one number for each variable, is in the box and all rows hold
    /// at it.
    pub fn holds(&self, point: &[i64]) -> bool
        requires same { length point.now ≡ self.now.vars }
        ensures { result ≡ holds self.now point.now }
    {
        let boxes = self.boxes.as_slice();
        let rows = self.rows.as_slice();
        lies_in(boxes, point) && all_hold(rows, point)
    }

    /// Tells a caller what each system keeps by its type. It does nothing.
    pub fn known(&self)
        ensures { IsSystem self.now }
    {
        let _ = self.boxes.len();
    }
}

/// Whether each row is at least 0 at the point.
pub fn all_hold(rows: &[Aff], point: &[i64]) -> bool
    requires same { All (λ f. length f.coefs ≡ length point.now) rows.now }
    requires small { All (IsAtMost (2 ^ 54)) point.now }
    ensures { result ≡ all_hold rows.now point.now }
{
    for row in rows {
        if row.value(point) < 0 {
            return false;
        }
    }
    true
}

fn lies_in(boxes: &[Range], point: &[i64]) -> bool
    requires same { length point.now ≡ length boxes.now }
    ensures { result ≡ lies_in boxes.now point.now }
{
    for k in 0..boxes.len() {
        if point[k] < boxes[k].low || boxes[k].high < point[k] {
            return false;
        }
    }
    true
}

fn all_of_length(rows: &[Aff], count: usize) -> bool
    ensures { IsTrue result ↔ All (λ f. length f.coefs ≡ count) rows.now }
{
    rows.iter().all(|row| row.coefs.len() == count)
}

fn all_boxes(boxes: &[Range]) -> bool
    ensures { IsTrue result ↔ All IsBox boxes.now }
{
    boxes.iter().all(|range| is_box(*range))
}

fn is_box(range: Range) -> bool
    ensures { IsTrue result ↔ IsBox range }
{
    range.low <= range.high && range.low >= -LARGEST_END && range.high <= LARGEST_END
}
