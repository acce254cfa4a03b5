//! Ranges that have the values of forms.

ghost use Rattle.std.specs.Prelude.{◌≡◌, ◌≤◌, ◌^◌, length, IfOk};
ghost use Rattle.std.specs.List.{All};
ghost use Rattle.ch_affine.specs.Rows.{IsBox};
ghost use Rattle.ch_datacopy.specs.Ranges.{AreRangesOf, HasSmall, IsRangeOf, clamped};

use ch_affine::extremes::{greatest_in, least_in};
use ch_affine::{Aff, List, Range};
use std::alloc::{AllocError, Global};

/// The number, or the nearest one of at most that magnitude.
fn clamped(number: i128, most: u64) -> i64
    requires { most ≤ 2 ^ 54 }
    ensures { result ≡ clamped most number }
{
    let limit = i128::from(most);
    if number < -limit {
        return -(most as i64);
    }
    if limit < number {
        return most as i64;
    }
    number as i64
}

/// A range for the form's values of at most that magnitude at the points of a box, where it has
/// one.
fn range_of(boxes: &[Range], form: &Aff, most: u64) -> Range
    requires same { length form.now.coefs ≡ length boxes.now }
    requires boxes { All IsBox boxes.now }
    requires most { most ≤ 2 ^ 54 }
    requires some { HasSmall most boxes.now form.now }
    ensures { IsRangeOf most boxes.now form.now result }
{
    Range {
        low: clamped(least_in(boxes, form), most),
        high: clamped(greatest_in(boxes, form), most),
    }
}

/// A range for each form.
pub(crate) fn ranges_of(
    alloc: Global,
    boxes: &[Range],
    forms: &[Aff],
    most: u64,
) -> Result<List<Range>, AllocError>
    requires same { All (λ f. length f.coefs ≡ length boxes.now) forms.now }
    requires boxes { All IsBox boxes.now }
    requires most { most ≤ 2 ^ 54 }
    requires some { All (HasSmall most boxes.now) forms.now }
    ensures { IfOk result (λ ranges. AreRangesOf most boxes.now forms.now ranges) }
{
    let mut ranges = List::with_capacity(alloc, forms.len())?;
    for form in forms {
        ranges.push(range_of(boxes, form, most))?;
    }
    Ok(ranges)
}
