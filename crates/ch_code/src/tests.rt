use crate::bodies::{Standing, put_expr};
use crate::names::Names;
use crate::print::text_of;
use crate::{Bound, Code, Unit, code_text, texts_differ};
use ch_affine::{Aff, Boxed, List, System, Text};
use ch_nest::{Access, ArrayDecl, Body, Expr, Sub};
use ch_timed::Label;
use std::alloc::{AllocError, Global};
use std::test::Fail;

fn form(alloc: Global, coefs: &[i64], constant: i64) -> Result<Aff, Fail> {
    let coefs = List::from_slice(alloc, coefs)?;
    Ok(Aff::new(coefs, constant).ok_or("form")?)
}

fn bounds(alloc: Global, coefs: &[i64], constant: i64, divisor: u32) -> Result<List<Bound>, Fail> {
    let mut bounds = List::new(alloc);
    bounds.push(Bound {
        form: form(alloc, coefs, constant)?,
        divisor,
    })?;
    Ok(bounds)
}

fn temps(alloc: Global) -> Result<List<List<u32>>, Fail> {
    let mut temps = List::new(alloc);
    temps.push(List::from_slice(alloc, [4].as_slice())?)?;
    Ok(temps)
}

/// A statement without iterators that writes 7 into cell 1 of an array.
fn writes_seven(alloc: Global, array: u32) -> Result<Code, Fail> {
    let form = form(alloc, [].as_slice(), 1)?;
    let mut subs = List::new(alloc);
    subs.push(Sub { form, modulus: 0 })?;
    let places = List::from_slice(alloc, [0].as_slice())?;
    Ok(Code::Leaf {
        label: Label::Stmt(0),
        body: Body {
            write: Access { array, subs },
            right: Expr::Number(7),
        },
        origin: List::new(alloc),
        places,
    })
}

fn vector(alloc: Global, name: Text) -> Result<ArrayDecl, Fail> {
    let extents = List::from_slice(alloc, [2].as_slice())?;
    Ok(ArrayDecl { name, extents })
}

const QUOTED: &[u8] = b"array \"a \\\"b\\\\\"[2]\n\
array A[2]\n\
array A[2]\n\
{\n\
    \x20 S0() at 0: #0[1] = 7\n\
    \x20 S0() at 0: A[1] = 7\n\
    \x20 S0() at 0: #2[1] = 7\n\
}\n";

#[test]
fn names_that_are_not_an_arrays_own_are_not_used(rt: HostRuntime) -> Result<(), Fail> {
    let alloc = rt.alloc();
    let mut arrays = List::new(alloc);
    arrays.push(vector(alloc, Text::of(alloc, b"a \"b\\")?)?)?;
    arrays.push(vector(alloc, Text::of(alloc, b"A")?)?)?;
    arrays.push(vector(alloc, Text::of(alloc, b"A")?)?)?;
    let mut parts = List::new(alloc);
    for array in 0..3u32 {
        parts.push(writes_seven(alloc, array)?)?;
    }
    let root = Code::Seq(parts);
    let text = text_of(alloc, &root, arrays.as_slice(), &[])?;
    assert!(rt; text.is(QUOTED));
    Ok(())
}

/// Buffer 0 minus the first iterator, with the buffer's value negated.
fn negated(alloc: Global) -> Result<Expr, Fail> {
    let read = Expr::Read(Access {
        array: 0,
        subs: List::new(alloc),
    });
    let read = Boxed::new(alloc, read)?;
    let negated = Boxed::new(alloc, Expr::Neg(read))?;
    let iterator = Boxed::new(alloc, Expr::Iter(0))?;
    Ok(Expr::Sub(negated, iterator))
}

/// A move into buffer 0, where no array is declared.
fn moved(alloc: Global) -> Result<Code, Fail> {
    let subscript = form(alloc, [1].as_slice(), 0)?;
    let mut subs = List::new(alloc);
    subs.push(Sub {
        form: subscript,
        modulus: 0,
    })?;
    let write = Access { array: 0, subs };
    let right = negated(alloc)?;
    let mut origin = List::new(alloc);
    origin.push(form(alloc, [1].as_slice(), 0)?)?;
    let places = List::from_slice(alloc, [0, 1].as_slice())?;
    Ok(Code::Leaf {
        label: Label::Move(4),
        body: Body { write, right },
        origin,
        places,
    })
}

fn always(alloc: Global, inner: Code) -> Result<Code, Fail> {
    let system = System::new(0, List::new(alloc), List::new(alloc)).ok_or("system")?;
    let inner = Boxed::new(alloc, inner)?;
    Ok(Code::Guard { system, inner })
}

/// A loop whose low has a coefficient for a loop that isn't around it.
fn loop_of_moves(alloc: Global) -> Result<Code, Fail> {
    let lows = bounds(alloc, [2].as_slice(), 1, 1)?;
    let mut highs = bounds(alloc, [].as_slice(), 5, 1)?;
    let form = form(alloc, [].as_slice(), 7)?;
    highs.push(Bound { form, divisor: 2 })?;
    let inner = always(alloc, moved(alloc)?)?;
    let inner = Boxed::new(alloc, inner)?;
    Ok(Code::Loop {
        level: 1,
        lows,
        highs,
        inner,
    })
}

const MOVED: &[u8] = b"buffer T:0[4]\n\
for x1 = of 1: 2*x1 + 1 to min(5, floor((7) / 2))\n\
    \x20 if true\n\
    \x20   M4(i1 = x1) at 0 1: T:0[i1] = -T:0[] - i1\n";

#[test]
fn prints_moves(rt: HostRuntime) -> Result<(), Fail> {
    let alloc = rt.alloc();
    let root = loop_of_moves(alloc)?;
    let temps = temps(alloc)?;
    let text = text_of(alloc, &root, &[], temps.as_slice())?;
    assert!(rt; text.is(MOVED));
    Ok(())
}

fn sum(alloc: Global, left: Expr, right: Expr) -> Result<Expr, AllocError> {
    Ok(Expr::Add(Boxed::new(alloc, left)?, Boxed::new(alloc, right)?))
}

fn difference(alloc: Global, left: Expr, right: Expr) -> Result<Expr, AllocError> {
    Ok(Expr::Sub(Boxed::new(alloc, left)?, Boxed::new(alloc, right)?))
}

fn product(alloc: Global, left: Expr, right: Expr) -> Result<Expr, AllocError> {
    Ok(Expr::Mul(Boxed::new(alloc, left)?, Boxed::new(alloc, right)?))
}

/// A right side whose every operation stands in another place of the text.
fn nested(alloc: Global) -> Result<Expr, AllocError> {
    let left = sum(
        alloc,
        sum(alloc, Expr::Iter(0), Expr::Number(1))?,
        Expr::Iter(1),
    )?;
    let minus = Expr::Neg(Boxed::new(alloc, Expr::Number(3))?);
    let right = product(alloc, Expr::Number(-2), Expr::Iter(0))?;
    let right = product(alloc, Expr::Iter(1), right)?;
    let both = product(alloc, left, minus)?;
    difference(alloc, both, sum(alloc, right, Expr::Number(-4))?)
}

fn right_text(alloc: Global, right: &Expr) -> Result<Text, AllocError> {
    let mut text = Text::new(alloc);
    let names = Names::of(alloc, &[])?;
    put_expr(&mut text, &names, 2, right, Standing::Sum)?;
    Ok(text)
}

const NESTED: &[u8] = b"(i1 + 1 + i2) * -(3) - (i2 * (-2 * i1) + -4)";

#[test]
fn parentheses_stand_where_they_are_needed(rt: HostRuntime) -> Result<(), Fail> {
    let alloc = rt.alloc();
    let right = nested(alloc)?;
    let text = right_text(alloc, &right)?;
    assert!(rt; text.is(NESTED));
    Ok(())
}

fn empty_unit(alloc: Global) -> Unit {
    Unit {
        root: Code::Seq(List::new(alloc)),
        arrays: List::new(alloc),
        temps: List::new(alloc),
    }
}

#[test]
fn prints_a_unit(rt: HostRuntime) -> Result<(), Fail> {
    let unit = empty_unit(rt.alloc());
    let text = code_text(rt.alloc(), &unit)?;
    assert!(rt; text.is(b"{\n}\n"));
    texts_differ();
    Ok(())
}
