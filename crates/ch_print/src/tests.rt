use crate::{put_buffer, put_cell, put_identity, put_number, put_wide};
use ch_affine::{List, Text};
use ch_timed::{Identity, Label};
use std::test::Fail;

#[test]
fn prints_instances_and_cells(rt: HostRuntime) -> Result<(), Fail> {
    let alloc = rt.alloc();
    let mut out = Text::new(alloc);
    let identity = Identity {
        label: Label::Stmt(10),
        iters: List::from_slice(alloc, [1, -20].as_slice())?,
    };
    put_identity(&mut out, &identity)?;
    let moved = Identity {
        label: Label::Move(0),
        iters: List::new(alloc),
    };
    put_identity(&mut out, &moved)?;
    let name = Text::of(alloc, b"A")?;
    put_cell(&mut out, &name, [3, 0].as_slice())?;
    put_buffer(&mut out, 7)?;
    assert!(rt; out.is(b"S10(1,-20)M0()A[3][0]T:7"));
    Ok(())
}

#[test]
fn prints_numbers(rt: HostRuntime) -> Result<(), Fail> {
    let mut out = Text::new(rt.alloc());
    put_number(&mut out, 18446744073709551615)?;
    out.append(b" ")?;
    put_wide(&mut out, -18446744073709551616)?;
    assert!(rt; out.is(b"18446744073709551615 -18446744073709551616"));
    Ok(())
}
