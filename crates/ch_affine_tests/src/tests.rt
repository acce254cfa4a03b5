//! Each call once, and the edges of the forms' limits, with values computed elsewhere.

use ch_affine::{Aff, AffError, Boxed, List, Range, System, Text, combine};
use std::alloc::{AllocError, Global};
use std::test::Fail;

const LARGE: i64 = 1 << 60;

const FAR: i64 = 1 << 54;

fn form(alloc: Global, coefs: &[i64], constant: i64) -> Result<Option<Aff>, AllocError> {
    let coefs = List::from_slice(alloc, coefs)?;
    Ok(Aff::new(coefs, constant))
}

#[test]
fn containers_hold_what_was_put_in(rt: HostRuntime) -> Result<(), Fail> {
    let alloc = rt.alloc();
    let mut list = List::with_capacity(alloc, 1)?;
    assert!(rt; list.is_empty());
    list.reserve(2)?;
    list.push(7)?;
    list.push(8)?;
    list.push(9)?;
    assert_eq!(rt; list.pop(), Some(9));
    assert_eq!(rt; list.len(), 2);
    for item in list.as_mut_slice() {
        *item = 5;
    }
    let list = List::from_vec(list.into_vec());
    assert_eq!(rt; list.as_slice(), [5, 5].as_slice());

    let mut none: List<u8> = List::new(alloc);
    assert_eq!(rt; none.pop(), None);

    let boxed = Boxed::new(alloc, 3)?;
    assert_eq!(rt; *boxed.get(), 3);
    assert_eq!(rt; boxed.into_inner(), 3);
    Ok(())
}

#[test]
fn texts_hold_their_bytes(rt: HostRuntime) -> Result<(), Fail> {
    let alloc = rt.alloc();
    let mut text = Text::new(alloc);
    assert!(rt; text.is_empty());
    text.append(b"cost ")?;
    text.append_number(-12i64)?;
    text.push(b' ')?;
    text.append_number(u64::MAX)?;
    assert!(rt; text.is(b"cost -12 18446744073709551615"));
    assert!(rt; !text.is(b"cost -12 1844674407370955161"));
    assert_eq!(rt; text.len(), 29);
    let copy = text.copied(alloc)?;
    assert_eq!(rt; copy.as_bytes(), text.as_bytes());
    let other = Text::of(alloc, b"S0")?;
    assert!(rt; other.is(b"S0"));
    Ok(())
}

#[test]
fn values_are_exact_at_the_limits(rt: HostRuntime) -> Result<(), Fail> {
    let alloc = rt.alloc();
    let cases: [(&[i64], i64, &[i64], i128); 5] = [
        (&[], -LARGE, &[], -1152921504606846976),
        (&[3, -2], 5, &[10, 20], -5),
        (&[LARGE], LARGE, &[FAR], 20769187434139311667043489923727360),
        (&[LARGE, LARGE], 0, &[FAR, -FAR], 0),
        (
            &[LARGE, -LARGE],
            -1,
            &[-FAR, FAR],
            -41538374868278621028243970633760769,
        ),
    ];
    for (coefs, constant, point, value) in cases {
        let form = form(alloc, coefs, constant)?.ok_or("a small form")?;
        let form = form.copied(alloc)?;
        assert_eq!(rt; form.coefs.len(), point.len());
        assert!(rt; point.iter().all(|x| x.unsigned_abs() <= 1 << 54));
        assert_eq!(rt; form.value(point), value);
    }
    assert!(rt; form(alloc, &[LARGE + 1], 0)?.is_none());
    assert!(rt; form(alloc, &[], -LARGE - 1)?.is_none());
    assert!(rt; form(alloc, &[0; 4097], 0)?.is_none());
    assert!(rt; form(alloc, &[0; 4096], 0)?.is_some());
    Ok(())
}

#[test]
fn combinations_stop_at_the_first_wide_number(rt: HostRuntime) -> Result<(), Fail> {
    let alloc = rt.alloc();
    let cases: [(
        i64,
        &[i64],
        i64,
        i64,
        &[i64],
        i64,
        i64,
        Result<(&[i64], i64), i128>,
    ); 8] = [
        (2, &[1, -3], 4, -1, &[5, 0], 1, 7, Ok((&[-3, -6], 7))),
        (2, &[1, -3], 4, -1, &[5, 0], 1, 6, Err(7)),
        (2, &[1, -3], 4, -1, &[5, 0], 1, 5, Err(-6)),
        (2, &[1, -3], 4, -1, &[5, 0], 1, 2, Err(-3)),
        (0, &[9], 9, 0, &[9], 9, 0, Ok((&[0], 0))),
        (1, &[], 1, 1, &[], -1, 0, Ok((&[], 0))),
        (1, &[], 1, 1, &[], 0, 0, Err(1)),
        (
            i64::MIN,
            &[LARGE],
            0,
            i64::MIN,
            &[LARGE],
            0,
            LARGE,
            Err(-21267647932558653966460912964485513216),
        ),
    ];
    for (a, xs, x, b, ys, y, limit, wanted) in cases {
        let x = form(alloc, xs, x)?.ok_or("a small form")?;
        let y = form(alloc, ys, y)?.ok_or("a small form")?;
        assert_eq!(rt; x.coefs.len(), y.coefs.len());
        assert!(rt; 0 <= limit && limit <= LARGE);
        match combine(alloc, a, &x, b, &y, limit) {
            Ok(found) => {
                let (coefs, constant) = wanted.ok().ok_or("a wide number")?;
                assert_eq!(rt; found.coefs.as_slice(), coefs);
                assert_eq!(rt; found.constant, constant);
            }
            Err(AffError::Wide { value }) => assert_eq!(rt; wanted.err(), Some(value)),
            Err(AffError::Memory) => return Err("no memory".into()),
        }
    }
    Ok(())
}

fn system(
    alloc: Global,
    vars: u32,
    row: &[i64],
    ranges: &[(i64, i64)],
) -> Result<Option<System>, AllocError> {
    let mut rows = List::new(alloc);
    if let Some((constant, coefs)) = row.split_last() {
        if let Some(row) = form(alloc, coefs, *constant)? {
            rows.push(row)?;
        }
    }
    let mut boxes = List::new(alloc);
    for (low, high) in ranges {
        boxes.push(Range {
            low: *low,
            high: *high,
        })?;
    }
    Ok(System::new(vars, rows, boxes))
}

#[test]
fn a_system_holds_in_its_box_at_its_rows(rt: HostRuntime) -> Result<(), Fail> {
    let alloc = rt.alloc();
    // x - y - 1 is at least 0, over 0 to 9 and -2 to 2
    let system = system(alloc, 2, &[1, -1, -1], &[(0, 9), (-2, 2)])?.ok_or("a system")?;
    let cases: [([i64; 2], bool); 8] = [
        ([0, 0], false),
        ([1, 0], true),
        ([9, 2], true),
        ([10, 2], false),
        ([-1, -2], false),
        ([0, -2], true),
        ([4, 3], false),
        ([i64::MAX, i64::MIN], false),
    ];
    for (point, wanted) in cases {
        assert_eq!(rt; system.vars, 2);
        assert_eq!(rt; system.holds(&point), wanted);
    }
    Ok(())
}

#[test]
fn a_system_keeps_its_bounds(rt: HostRuntime) -> Result<(), Fail> {
    let alloc = rt.alloc();
    assert!(rt; system(alloc, 0, &[], &[])?.is_some());
    assert!(rt; system(alloc, 1, &[LARGE, LARGE], &[(-FAR, FAR)])?.is_some());
    assert!(rt;
        system(alloc, 1, &[1, 2, 0], &[(0, 1)])?.is_none(),
        "a row of two variables"
    );
    assert!(rt;
        system(alloc, 2, &[], &[(0, 1)])?.is_none(),
        "one range for two variables"
    );
    assert!(rt;
        system(alloc, 1, &[], &[(1, 0)])?.is_none(),
        "no number in the range"
    );
    assert!(rt;
        system(alloc, 1, &[], &[(0, FAR + 1)])?.is_none(),
        "a far end"
    );
    assert!(rt;
        system(alloc, 1, &[], &[(-FAR - 1, 0)])?.is_none(),
        "a far end"
    );
    assert!(rt;
        system(alloc, 4097, &[], &[(0, 0); 4097])?.is_none(),
        "too many variables"
    );
    assert!(rt; system(alloc, 4096, &[], &[(0, 0); 4096])?.is_some());
    Ok(())
}
