//! Small systems against plain enumeration of their boxes, and the edges of the types, with values
//! computed elsewhere.

ghost use Rattle.std.specs.Prelude.{◌≡◌, ◌≤◌, length};

use ch_affine::{Aff, List, Range, System};
use ch_poly::{Excluded, Room, excluded, greatest_value, has_point, least_point, least_value};
use std::alloc::{AllocError, Global};
use std::process::Abort;
use std::test::Fail;

const LARGE: i64 = 1 << 60;

const FAR: i64 = 1 << 54;

const WIDE: i64 = 1 << 40;

/// A form, its constant last.
fn form(alloc: Global, numbers: &[i64]) -> Result<Option<Aff>, AllocError> {
    let Some((constant, coefs)) = numbers.split_last() else {
        return Ok(None);
    };
    Ok(Aff::new(List::from_slice(alloc, coefs)?, *constant))
}

fn system(
    alloc: Global,
    ranges: &[(i64, i64)],
    rows: &[&[i64]],
) -> Result<Option<System>, AllocError> {
    let mut boxes = List::new(alloc);
    for (low, high) in ranges {
        boxes.push(Range {
            low: *low,
            high: *high,
        })?;
    }
    let mut forms = List::new(alloc);
    for row in rows {
        if let Some(row) = form(alloc, row)? {
            forms.push(row)?;
        }
    }
    let Ok(vars) = u32::try_from(ranges.len()) else {
        return Ok(None);
    };
    Ok(System::new(vars, forms, boxes))
}

/// The point of the box from -3 to 4 and from -2 to 3 with these places.
fn point_at(i: u8, j: u8) -> [i64; 2] {
    [i64::from(i) - 3, i64::from(j) - 2]
}

fn value_at(system: &System, form: &Aff, i: u8, j: u8) -> Option<i128>
    requires vars { system.now.vars ≡ 2 }
    requires coefs { length form.now.coefs ≡ 2 }
{
    let point = point_at(i, j);
    if system.holds(&point) && point.iter().all(|x| x.unsigned_abs() <= 1 << 54) {
        Some(form.value(&point))
    } else {
        None
    }
}

fn first_of(system: &System) -> Option<[i64; 2]>
    requires { system.now.vars ≡ 2 }
{
    for i in 0u8..8 {
        for j in 0u8..6 {
            let point = point_at(i, j);
            if system.holds(&point) {
                return Some(point);
            }
        }
    }
    None
}

fn extremes_of(system: &System, form: &Aff) -> Option<(i128, i128)>
    requires vars { system.now.vars ≡ 2 }
    requires coefs { length form.now.coefs ≡ 2 }
{
    let mut extremes = None;
    for i in 0u8..8 {
        for j in 0u8..6 {
            extremes = widened(extremes, value_at(system, form, i, j));
        }
    }
    extremes
}

fn widened(extremes: Option<(i128, i128)>, value: Option<i128>) -> Option<(i128, i128)> {
    match (extremes, value) {
        (Some((least, greatest)), Some(value)) => Some((least.min(value), greatest.max(value))),
        (None, Some(value)) => Some((value, value)),
        (extremes, None) => extremes,
    }
}

fn has_row(system: &System, i: u8) -> bool
    requires { system.now.vars ≡ 2 }
{
    for j in 0u8..6 {
        if system.holds(&point_at(i, j)) {
            return true;
        }
    }
    false
}

fn agrees(rt: &impl Abort, alloc: Global, rows: &[&[i64]], numbers: &[i64]) -> Result<(), Fail> {
    let system = system(alloc, &[(-3, 4), (-2, 3)], rows)?.ok_or("a system")?;
    let form = form(alloc, numbers)?.ok_or("a form")?;
    assert_eq!(rt; system.vars, 2);
    assert_eq!(rt; form.coefs.len(), 2);
    assert!(rt; system.rows.len() <= 2);
    let extremes = extremes_of(&system, &form);
    match first_of(&system) {
        Some(point) => check(rt, alloc, &system, &form, Some(&point), extremes)?,
        None => check(rt, alloc, &system, &form, None, extremes)?,
    }
    for i in 0u8..8 {
        assert!(rt; agrees_at(alloc, &system, i)?, "at {i}");
    }
    Ok(())
}

/// Whether `has_point` and the enumeration answer alike where the first variable has this place.
fn agrees_at(alloc: Global, system: &System, i: u8) -> Result<bool, AllocError>
    requires vars { system.now.vars ≡ 2 }
    requires rows { length system.now.rows ≤ 2 }
{
    let mut room = Room::of(alloc, 2, 2)?;
    let found = has_point(system, &[i64::from(i) - 3], &mut room);
    Ok(found == has_row(system, i))
}

fn check(
    rt: &impl Abort,
    alloc: Global,
    system: &System,
    form: &Aff,
    point: Option<&[i64]>,
    extremes: Option<(i128, i128)>,
) -> Result<(), Fail> {
    assert_eq!(rt; form.coefs.len(), system.vars as usize);
    match (least_point(alloc, system)?, point) {
        (None, None) => {}
        (Some(found), Some(point)) => assert!(rt; found.as_slice() == point),
        _ => return Err("one of them has a point".into()),
    }
    assert_eq!(rt;
        least_value(alloc, system, form)?,
        extremes.map(|pair| pair.0)
    );
    assert_eq!(rt;
        greatest_value(alloc, system, form)?,
        extremes.map(|pair| pair.1)
    );
    Ok(())
}

fn case(
    rt: &impl Abort,
    alloc: Global,
    ranges: &[(i64, i64)],
    rows: &[&[i64]],
    numbers: &[i64],
    point: Option<&[i64]>,
    extremes: Option<(i128, i128)>,
) -> Result<(), Fail> {
    let system = system(alloc, ranges, rows)?.ok_or("a system")?;
    let form = form(alloc, numbers)?.ok_or("a form")?;
    check(rt, alloc, &system, &form, point, extremes)
}

#[test]
fn rows_that_cut_a_box_agree_with_enumeration(rt: HostRuntime) -> Result<(), Fail> {
    let alloc = rt.alloc();
    agrees(&rt, alloc, &[&[-2, 1, -1], &[1, 1, 3]], &[-2, 2, 3])?;
    agrees(&rt, alloc, &[&[3, 1, -4], &[2, -3, 0]], &[3, 2, 4])
}

#[test]
fn a_row_that_holds_nowhere_agrees_with_enumeration(rt: HostRuntime) -> Result<(), Fail> {
    agrees(&rt, rt.alloc(), &[&[0, -1, -3], &[1, 0, 0]], &[2, 1, 0])
}

#[test]
fn rows_without_an_integer_point_agree_with_enumeration(rt: HostRuntime) -> Result<(), Fail> {
    agrees(&rt, rt.alloc(), &[&[2, 4, -1], &[-2, -4, 2]], &[1, 1, 0])
}

#[test]
fn systems_without_variables_have_one_point_or_none(rt: HostRuntime) -> Result<(), Fail> {
    let alloc = rt.alloc();
    case(&rt, alloc, &[], &[], &[7], Some(&[]), Some((7, 7)))?;
    case(&rt, alloc, &[], &[&[-1]], &[7], None, None)
}

#[test]
fn the_largest_numbers_are_exact(rt: HostRuntime) -> Result<(), Fail> {
    let ends = (
        -20769187434139309361200480710033408,
        20769187434139311667043489923727360,
    );
    case(
        &rt,
        rt.alloc(),
        &[(-FAR, FAR)],
        &[],
        &[LARGE, LARGE],
        Some(&[-FAR]),
        Some(ends),
    )
}

#[test]
fn the_largest_coefficients_narrow_exactly(rt: HostRuntime) -> Result<(), Fail> {
    let ends = (-20769187434139310514121985316880384, -1152921504606846976);
    case(
        &rt,
        rt.alloc(),
        &[(-FAR, FAR)],
        &[&[LARGE, -LARGE]],
        &[-LARGE, 0],
        Some(&[1]),
        Some(ends),
    )
}

#[test]
fn opposed_rows_are_seen_before_the_walk(rt: HostRuntime) -> Result<(), Fail> {
    let far = (-FAR, FAR);
    case(
        &rt,
        rt.alloc(),
        &[far, far],
        &[&[LARGE, -LARGE, -1], &[-LARGE, LARGE, 0]],
        &[0, 0, 0],
        None,
        None,
    )
}

fn excludes(
    rt: &impl Abort,
    alloc: Global,
    ranges: &[(i64, i64)],
    rows: &[&[i64]],
    wanted: Option<Excluded>,
) -> Result<(), Fail> {
    let system = system(alloc, ranges, rows)?.ok_or("a system")?;
    assert_eq!(rt; excluded(&system), wanted);
    Ok(())
}

#[test]
fn the_least_row_that_a_divisor_refutes_comes_first(rt: HostRuntime) -> Result<(), Fail> {
    let alloc = rt.alloc();
    let one = [(0, 9)];
    let two = [(0, 9), (0, 9)];
    let gcd = |row: usize| Some(Excluded::Gcd { row });
    excludes(&rt, alloc, &two, &[&[2, -2, -1], &[-2, 2, 1]], gcd(0))?;
    excludes(&rt, alloc, &two, &[&[2, -2, -4], &[-2, 2, 4]], None)?;
    // the divisor of no coefficient but 0 is 0, which divides 0 alone
    excludes(&rt, alloc, &one, &[&[0, 3], &[0, -3]], gcd(0))?;
    excludes(&rt, alloc, &one, &[&[0, 0], &[0, 0]], None)?;
    let rows: [&[i64]; 3] = [&[1, 0, -20], &[3, 6, 1], &[-3, -6, -1]];
    excludes(&rt, alloc, &two, &rows, gcd(1))
}

#[test]
fn the_least_row_below_0_in_the_box_comes_then(rt: HostRuntime) -> Result<(), Fail> {
    let alloc = rt.alloc();
    let one = [(0, 9)];
    let range = |row: usize| Some(Excluded::Range { row });
    excludes(&rt, alloc, &one, &[&[1, -20]], range(0))?;
    excludes(
        &rt,
        alloc,
        &one,
        &[&[1, -9], &[-1, -1], &[1, -20]],
        range(1),
    )?;
    excludes(&rt, alloc, &one, &[&[1, -9], &[-1, 0]], None)?;
    excludes(&rt, alloc, &[], &[&[-1]], range(0))?;
    excludes(&rt, alloc, &[], &[], None)
}

#[test]
fn equalities_that_only_elimination_refutes_have_no_point(rt: HostRuntime) -> Result<(), Fail> {
    let far = (-WIDE, WIDE);
    // x + y is even and x - y odd
    let rows: [&[i64]; 4] = [
        &[1, 1, -2, 0],
        &[-1, -1, 2, 0],
        &[1, -1, 0, -1],
        &[-1, 1, 0, 1],
    ];
    let form = [1, 0, 0, 0];
    case(&rt, rt.alloc(), &[far, far, far], &rows, &form, None, None)
}

#[test]
fn rows_over_a_wide_box_need_no_walk(rt: HostRuntime) -> Result<(), Fail> {
    let alloc = rt.alloc();
    let far = (-WIDE, WIDE);
    let rows: [&[i64]; 8] = [
        &[4, 8, 4, -7, -2959042001541],
        &[3, 6, 2, -1, 1933733817745],
        &[-4, 9, 6, -8, -5730226308126],
        &[2, -5, -3, 7, 5652818571726],
        &[-4, 0, 7, -4, -4791387818633],
        &[0, -8, 9, 0, -2382522797563],
        &[2, -4, -1, 0, -837337047360],
        &[-3, 1, 5, 3, 2648260667577],
    ];
    let system = system(alloc, &[far, far, far, far], &rows)?.ok_or("a system")?;
    let point = least_point(alloc, &system)?.ok_or("a point")?;
    // each smaller value leaves no rational point, by Fourier and Motzkin's elimination
    let wanted = [-312086892214, -640255614892, 1099511627775, -704483996919];
    assert!(rt; point.as_slice() == wanted.as_slice());
    Ok(())
}
