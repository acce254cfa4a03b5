//! Changes of variables of small pieces.

ghost use Rattle.std.specs.Prelude.{◌≡◌, ◌+◌, ◌≤◌, ◌^◌, [], ◌∷◌, length, IfOk};
ghost use Rattle.std.specs.List.{All};
ghost use Rattle.ch_affine.specs.Affine.{IsAtMost, form};
ghost use Rattle.ch_affine.specs.Rows.{IsBox};
ghost use Rattle.ch_moved.specs.Reindexed.{IsReindexed};
ghost use Rattle.ch_space.specs.Keeps.{IsWhole};

use ch_affine::{Aff, List, Range, System};
use ch_moved::reindexed;
use ch_nest::{Access, Body, Expr};
use ch_space::Piece;
use ch_timed::Label;
use std::alloc::{AllocError, Global};
use std::test::Fail;

fn one<T: Drop>(alloc: Global, item: T) -> Result<List<T>, AllocError>
    ensures { IfOk result (λ list. list ≡ item ∷ []) }
{
    let mut list = List::new(alloc);
    list.push(item)?;
    Ok(list)
}

fn form(alloc: Global, coefs: &[i64], constant: i64) -> Result<Aff, Fail>
    ensures { IfOk result (λ f. f ≡ form coefs.now constant) }
{
    let coefs = List::from_slice(alloc, coefs)?;
    let form = Aff::new(coefs, constant).ok_or("a small form")?;
    Ok(form)
}

fn body(alloc: Global) -> Body {
    let write = Access {
        array: 0,
        subs: List::new(alloc),
    };
    let right = Expr::Number(1);
    Body { write, right }
}

/// A piece of one level with this range, at whose values the row holds.
fn line(alloc: Global, range: Range, row: Aff) -> Result<Piece, Fail>
    ensures whole { IfOk result (λ p. IsWhole p) }
    ensures levels { IfOk result (λ p. p.levels ≡ 1) }
    ensures hidden { IfOk result (λ p. p.hidden ≡ 0) }
    ensures origin { IfOk result (λ p. p.origin ≡ []) }
{
    let rows = one(alloc, row)?;
    let boxes = one(alloc, range)?;
    let system = System::new(1, rows, boxes).ok_or("a system")?;
    let places = List::from_slice(alloc, &[0, 0])?;
    Ok(Piece {
        label: Label::Stmt(0),
        body: body(alloc),
        levels: 1,
        hidden: 0,
        system,
        origin: List::new(alloc),
        places,
    })
}

/// The line from 0 to 3 where the row holds, whose value the form gives from new levels.
fn moved(
    alloc: Global,
    row: Aff,
    form: Aff,
    boxes: List<Range>,
    places: List<u32>,
) -> Result<Piece, Fail>
    requires long { length form.coefs ≡ length boxes }
    requires near { IsAtMost (2 ^ 59) form.constant }
    requires few { length boxes ≤ 2 }
    requires ranges { All IsBox boxes }
    requires places { length places ≡ length boxes + 1 }
{
    let piece = line(alloc, Range { low: 0, high: 3 }, row)?;
    let forms = one(alloc, form)?;
    let new = reindexed(alloc, &piece, forms.as_slice(), boxes, &[], places)?;
    Ok(new)
}

#[test]
fn a_shift_adds_no_row(rt: HostRuntime) -> Result<(), Fail> {
    let alloc = rt.alloc();
    let boxes = one(alloc, Range { low: 5, high: 8 })?;
    let places = List::from_slice(alloc, &[0, 0])?;
    let row = form(alloc, &[1], -1)?;
    let new = moved(alloc, row, form(alloc, &[1], -5)?, boxes, places)?;
    assert_eq!(rt; new.hidden, 0);
    assert_eq!(rt; new.system.rows.len(), 1);
    assert!(rt; new.system.vars == 1 && new.system.holds(&[6]) && !new.system.holds(&[5]));
    Ok(())
}

#[test]
fn a_skew_keeps_to_the_old_range(rt: HostRuntime) -> Result<(), Fail> {
    let alloc = rt.alloc();
    let range = Range { low: 0, high: 3 };
    let boxes = List::from_slice(alloc, &[range, range])?;
    let places = List::from_slice(alloc, &[0, 0, 0])?;
    let row = form(alloc, &[1], -1)?;
    let new = moved(alloc, row, form(alloc, &[1, 1], 0)?, boxes, places)?;
    assert_eq!(rt; new.hidden, 0);
    assert_eq!(rt; new.system.rows.len(), 2);
    assert!(rt; new.system.vars == 2 && new.system.holds(&[1, 2]) && !new.system.holds(&[2, 2]));
    Ok(())
}

#[test]
fn a_row_too_large_stays_over_a_hidden_level(rt: HostRuntime) -> Result<(), Fail> {
    let alloc = rt.alloc();
    let boxes = one(alloc, Range { low: 0, high: 1 })?;
    let places = List::from_slice(alloc, &[0, 0])?;
    let row = form(alloc, &[1 << 60], -1)?;
    let new = moved(alloc, row, form(alloc, &[2], 0)?, boxes, places)?;
    assert_eq!(rt; new.hidden, 1);
    assert_eq!(rt; new.system.rows.len(), 3);
    assert!(rt; new.system.vars == 2 && new.system.holds(&[1, 2]) && !new.system.holds(&[1, 1]));
    Ok(())
}
