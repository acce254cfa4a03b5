//! The edges of the limits, and small nests whose cells were worked out by hand.

use ch_affine::{Aff, Boxed, List, Text};
use ch_nest::{
    Access, ArrayDecl, Body, Expr, Fill, Item, Nest, Sub, filled, is_sound, perform, run_nest,
};
use std::alloc::{AllocError, Global};
use std::test::Fail;

/// The coefficients of a form, and its constant.
type Form<'a> = (&'a [i64], i64);

/// A right side, operands before their operation.
#[derive(Clone, Copy)]
enum Step<'a> {
    Number(i64),
    Iter(u32),
    Read(u32, &'a [Form<'a>]),
    Neg,
    Add,
    Sub,
    Mul,
}

/// Loops around one another, from a number to a number, and statements in the innermost one.
#[derive(Clone, Copy)]
struct Plan<'a> {
    arrays: &'a [&'a [u32]],
    loops: &'a [(i64, i64)],
    statements: &'a [(&'a [Form<'a>], u32, &'a [Step<'a>])],
}

fn form(alloc: Global, form: Form<'_>) -> Result<Aff, Fail> {
    let coefs = List::from_slice(alloc, form.0)?;
    let form = Aff::new(coefs, form.1).ok_or("a small form")?;
    Ok(form)
}

fn one<T: Drop>(alloc: Global, item: T) -> Result<List<T>, AllocError> {
    let mut list = List::new(alloc);
    list.push(item)?;
    Ok(list)
}

fn sub(alloc: Global, of: Form<'_>, modulus: u32) -> Result<Sub, Fail> {
    let form = form(alloc, of)?;
    Ok(Sub { form, modulus })
}

fn access(alloc: Global, array: u32, forms: &[Form<'_>]) -> Result<Access, Fail> {
    let mut subs = List::new(alloc);
    for f in forms {
        subs.push(sub(alloc, *f, 0)?)?;
    }
    Ok(Access { array, subs })
}

fn negated(alloc: Global, x: Expr) -> Result<Expr, AllocError> {
    Ok(Expr::Neg(Boxed::new(alloc, x)?))
}

fn joined(alloc: Global, step: Step<'_>, x: Expr, y: Expr) -> Result<Expr, AllocError> {
    let x = Boxed::new(alloc, x)?;
    let y = Boxed::new(alloc, y)?;
    Ok(match step {
        Step::Add => Expr::Add(x, y),
        Step::Sub => Expr::Sub(x, y),
        _ => Expr::Mul(x, y),
    })
}

fn popped(stack: &mut List<Expr>) -> Expr {
    stack.pop().unwrap_or(Expr::Number(0))
}

fn next(alloc: Global, step: Step<'_>, stack: &mut List<Expr>) -> Result<Expr, Fail> {
    let expr = match step {
        Step::Number(n) => Expr::Number(n),
        Step::Iter(k) => Expr::Iter(k),
        Step::Read(array, forms) => Expr::Read(access(alloc, array, forms)?),
        Step::Neg => negated(alloc, popped(stack))?,
        Step::Add | Step::Sub | Step::Mul => {
            let y = popped(stack);
            joined(alloc, step, popped(stack), y)?
        }
    };
    Ok(expr)
}

fn right(alloc: Global, steps: &[Step<'_>]) -> Result<Expr, Fail> {
    let mut stack = List::new(alloc);
    for step in steps {
        let expr = next(alloc, *step, &mut stack)?;
        stack.push(expr)?;
    }
    Ok(popped(&mut stack))
}

fn array(alloc: Global, extents: &[u32]) -> Result<ArrayDecl, AllocError> {
    let extents = List::from_slice(alloc, extents)?;
    Ok(ArrayDecl {
        name: Text::new(alloc),
        extents,
    })
}

/// Where a loop begins and ends, how many low and high ends it has, and its step.
#[derive(Clone, Copy)]
struct Head {
    low: i64,
    high: i64,
    forms: u32,
    step: u32,
}

fn unit_head(low: i64, high: i64) -> Head {
    Head {
        low,
        high,
        forms: 1,
        step: 1,
    }
}

/// A loop below `depth` others.
fn loop_of(alloc: Global, depth: usize, head: Head, items: List<Item>) -> Result<Item, Fail> {
    let lows = copies(alloc, depth, head.low, head.forms)?;
    let highs = copies(alloc, depth, head.high, head.forms)?;
    let step = head.step;
    Ok(Item::Loop {
        lows,
        highs,
        step,
        items,
    })
}

/// A condition that holds where the form is at least 0.
fn if_of(alloc: Global, row: Form<'_>, items: List<Item>) -> Result<Item, Fail> {
    let row = form(alloc, row)?;
    Ok(Item::If { row, items })
}

fn copies(alloc: Global, depth: usize, constant: i64, count: u32) -> Result<List<Aff>, Fail> {
    let zeros = [0; 8];
    let mut forms = List::new(alloc);
    for _ in 0..count {
        forms.push(form(alloc, (&zeros[..depth.min(8)], constant))?)?;
    }
    Ok(forms)
}

fn plan_arrays(alloc: Global, plan: &Plan<'_>) -> Result<List<ArrayDecl>, AllocError> {
    let mut arrays = List::new(alloc);
    for extents in plan.arrays {
        arrays.push(array(alloc, extents)?)?;
    }
    Ok(arrays)
}

fn plan_items(alloc: Global, plan: &Plan<'_>) -> Result<List<Item>, Fail> {
    let mut items = List::new(alloc);
    let mut label = 0;
    for (subs, array, steps) in plan.statements {
        let write = access(alloc, *array, subs)?;
        let right = right(alloc, steps)?;
        let body = Body { write, right };
        items.push(Item::Assign { label, body })?;
        label = label.wrapping_add(1);
    }
    Ok(items)
}

fn nest_of(alloc: Global, plan: &Plan<'_>) -> Result<Nest, Fail> {
    let mut items = plan_items(alloc, plan)?;
    for (depth, ends) in plan.loops.iter().enumerate().rev() {
        items = one(
            alloc,
            loop_of(alloc, depth, unit_head(ends.0, ends.1), items)?,
        )?;
    }
    let arrays = plan_arrays(alloc, plan)?;
    let nest = Nest::new(arrays, items).ok_or("a nest")?;
    Ok(nest)
}

/// What a case changes of a nest with one loop, one statement and one array of one cell.
#[derive(Clone, Copy, Debug)]
enum Change {
    Loops(usize),
    Statements(u32),
    FirstLabel(u32),
    Operands(u32),
    Signs(u32),
    SumInSigns(u32),
    Forms(u32),
    Step(u32),
    StepOfMax(u32),
    Conditions(u32),
    RowCoef(i64),
    RowConstant(i64),
    High(i64),
    Coef(i64),
    Constant(i64),
    Modulus(u32),
    Number(i64),
    Iter(u32),
    Array(u32),
    Subs(u32),
    Dimensions(u32),
    Cells(u32),
}

#[derive(Clone, Copy)]
struct Case {
    loops: usize,
    statements: u32,
    first_label: u32,
    operands: u32,
    signs: u32,
    forms: u32,
    step: u32,
    conditions: u32,
    row: (i64, i64),
    high: i64,
    coef: i64,
    constant: i64,
    modulus: u32,
    first: Step<'static>,
    array: u32,
    subs: u32,
    dimensions: u32,
    cells: u32,
}

fn changed(change: Change) -> Case {
    let mut case = Case {
        loops: 1,
        statements: 1,
        first_label: 0,
        operands: 1,
        signs: 0,
        forms: 1,
        step: 1,
        conditions: 0,
        row: (0, 0),
        high: 1,
        coef: 0,
        constant: 0,
        modulus: 0,
        first: Step::Number(0),
        array: 0,
        subs: 1,
        dimensions: 1,
        cells: 1,
    };
    match change {
        Change::Loops(n) => case.loops = n,
        Change::Statements(n) => case.statements = n,
        Change::FirstLabel(n) => case.first_label = n,
        Change::Operands(n) => case.operands = n,
        Change::Signs(n) => case.signs = n,
        Change::SumInSigns(n) => {
            case.operands = 2;
            case.signs = n;
        }
        Change::Forms(n) => case.forms = n,
        Change::Step(n) => case.step = n,
        Change::StepOfMax(n) => {
            case.forms = 2;
            case.step = n;
        }
        Change::Conditions(n) => case.conditions = n,
        Change::RowCoef(n) => {
            case.conditions = 1;
            case.row = (n, 0);
        }
        Change::RowConstant(n) => {
            case.conditions = 1;
            case.row = (0, n);
        }
        Change::High(n) => case.high = n,
        Change::Coef(n) => case.coef = n,
        Change::Constant(n) => case.constant = n,
        Change::Modulus(n) => case.modulus = n,
        Change::Number(n) => case.first = Step::Number(n),
        Change::Iter(n) => case.first = Step::Iter(n),
        Change::Array(n) => case.array = n,
        Change::Subs(n) => case.subs = n,
        Change::Dimensions(n) => {
            case.dimensions = n;
            case.subs = n;
        }
        Change::Cells(n) => case.cells = n,
    }
    case
}

const LARGE: i64 = 1 << 30;

const LIMITS: [(Change, bool); 58] = [
    (Change::Loops(0), true),
    (Change::Loops(6), true),
    (Change::Loops(7), false),
    (Change::Statements(0), false),
    (Change::Statements(16), true),
    (Change::Statements(17), false),
    (Change::FirstLabel(1), false),
    (Change::Operands(256), true),
    (Change::Operands(257), false),
    (Change::Signs(32), true),
    (Change::Signs(33), false),
    (Change::SumInSigns(31), true),
    (Change::SumInSigns(32), false),
    (Change::Forms(0), false),
    (Change::Forms(4), true),
    (Change::Forms(5), false),
    (Change::Step(0), false),
    (Change::Step(2), true),
    (Change::Step(64), true),
    (Change::Step(65), false),
    (Change::StepOfMax(1), true),
    (Change::StepOfMax(2), false),
    (Change::Conditions(1), true),
    (Change::Conditions(32), true),
    (Change::Conditions(33), false),
    (Change::RowCoef(2 * LARGE), true),
    (Change::RowCoef(2 * LARGE + 1), false),
    (Change::RowCoef(-2 * LARGE), true),
    (Change::RowCoef(-2 * LARGE - 1), false),
    (Change::RowConstant(2 * LARGE), true),
    (Change::RowConstant(2 * LARGE + 1), false),
    (Change::RowConstant(-2 * LARGE - 1), true),
    (Change::RowConstant(-2 * LARGE - 2), false),
    (Change::High(LARGE), true),
    (Change::High(LARGE + 1), false),
    (Change::High(-LARGE), true),
    (Change::High(-LARGE - 1), true),
    (Change::High(-LARGE - 2), false),
    (Change::Coef(LARGE), true),
    (Change::Coef(LARGE + 1), false),
    (Change::Coef(-LARGE), true),
    (Change::Coef(-LARGE - 1), false),
    (Change::Constant(LARGE), true),
    (Change::Constant(LARGE + 1), false),
    (Change::Modulus(1), false),
    (Change::Number(2 * LARGE), true),
    (Change::Number(2 * LARGE + 1), false),
    (Change::Number(-2 * LARGE), true),
    (Change::Number(-2 * LARGE - 1), false),
    (Change::Iter(0), true),
    (Change::Iter(1), false),
    (Change::Array(1), false),
    (Change::Subs(2), false),
    (Change::Dimensions(0), false),
    (Change::Dimensions(4), true),
    (Change::Dimensions(5), false),
    (Change::Cells(262144), true),
    (Change::Cells(262145), false),
];

fn case_right(alloc: Global, case: &Case) -> Result<Expr, Fail> {
    let mut expr = right(alloc, &[case.first])?;
    for _ in 1..case.operands {
        expr = joined(alloc, Step::Add, expr, Expr::Number(1))?;
    }
    for _ in 0..case.signs {
        expr = negated(alloc, expr)?;
    }
    Ok(expr)
}

fn case_access(alloc: Global, case: &Case) -> Result<Access, Fail> {
    let coefs = [case.coef; 8];
    let mut subs = List::new(alloc);
    for _ in 0..case.subs {
        let of = (&coefs[..case.loops.min(8)], case.constant);
        subs.push(sub(alloc, of, case.modulus)?)?;
    }
    Ok(Access {
        array: case.array,
        subs,
    })
}

fn case_items(alloc: Global, case: &Case) -> Result<List<Item>, Fail> {
    let mut items = List::new(alloc);
    let mut label = case.first_label;
    for _ in 0..case.statements {
        let write = case_access(alloc, case)?;
        let right = case_right(alloc, case)?;
        let body = Body { write, right };
        items.push(Item::Assign { label, body })?;
        label = label.wrapping_add(1);
    }
    let coefs = [case.row.0; 8];
    for _ in 0..case.conditions {
        let row = (&coefs[..case.loops.min(8)], case.row.1);
        items = one(alloc, if_of(alloc, row, items)?)?;
    }
    Ok(items)
}

fn case_array(alloc: Global, case: &Case) -> Result<ArrayDecl, AllocError> {
    let mut extents = List::new(alloc);
    for k in 0..case.dimensions {
        extents.push(if k == 0 { case.cells } else { 1 })?;
    }
    array(alloc, extents.as_slice())
}

fn case_nest(alloc: Global, case: &Case) -> Result<Option<Nest>, Fail> {
    let mut items = case_items(alloc, case)?;
    for depth in (0..case.loops).rev() {
        let head = Head {
            low: 0,
            high: case.high,
            forms: case.forms,
            step: case.step,
        };
        items = one(alloc, loop_of(alloc, depth, head, items)?)?;
    }
    let arrays = one(alloc, case_array(alloc, case)?)?;
    Ok(Nest::new(arrays, items))
}

#[test]
fn nests_keep_their_limits(rt: HostRuntime) -> Result<(), Fail> {
    let alloc = rt.alloc();
    for (change, fits) in LIMITS {
        let nest = case_nest(alloc, &changed(change))?;
        assert_eq!(rt; nest.is_some(), fits, "{change:?}");
    }
    Ok(())
}

/// The cells after a run that started from the fills, or `None` where the nest can't be run or its
/// two runs differ.
#[tactic(auto, using(ch_nest::proofs::Sounds::arrays_of, ch_nest::proofs::Sounds::inside_of))]
fn ran(alloc: Global, nest: &Nest, fills: &[Fill]) -> Result<Option<List<i64>>, AllocError> {
    nest.known();
    if fills.len() != nest.arrays.len() || !is_sound(nest) {
        return Ok(None);
    }
    let mut cells = filled(alloc, nest.arrays.as_slice(), fills)?;
    run_nest(nest, &mut cells);
    let mut performed = filled(alloc, nest.arrays.as_slice(), fills)?;
    perform(alloc, nest, &mut performed)?;
    if performed.as_slice() != cells.as_slice() {
        return Ok(None);
    }
    Ok(Some(cells))
}

#[test]
fn a_matrix_product_is_added_up(rt: HostRuntime) -> Result<(), Fail> {
    let alloc = rt.alloc();
    let i: Form<'_> = (&[1, 0, 0], 0);
    let j: Form<'_> = (&[0, 1, 0], 0);
    let k: Form<'_> = (&[0, 0, 1], 0);
    let plan = Plan {
        arrays: &[&[2, 2], &[2, 2], &[2, 2]],
        loops: &[(0, 1), (0, 1), (0, 1)],
        statements: &[(
            &[i, j],
            2,
            &[
                Step::Read(2, &[i, j]),
                Step::Read(0, &[i, k]),
                Step::Read(1, &[k, j]),
                Step::Mul,
                Step::Add,
            ],
        )],
    };
    let fills = [
        Fill { a: 1, b: 1 },
        Fill { a: 1, b: 5 },
        Fill { a: 0, b: 0 },
    ];
    let nest = nest_of(alloc, &plan)?;
    let cells = ran(alloc, &nest, &fills)?.ok_or("a sound nest")?;
    let wanted = [1, 2, 3, 4, 5, 6, 7, 8, 19, 22, 43, 50];
    assert_eq!(rt; cells.as_slice(), wanted.as_slice());
    Ok(())
}

/// The first cell, outside of all loops.
const FIRST: &[Form<'static>] = &[(&[], 0)];

const READ: Step<'static> = Step::Read(0, FIRST);

const SQUARES: &[Step<'static>] = &[READ, READ, Step::Mul, READ, READ, Step::Mul, Step::Add];

/// In `A[0]`: twice the square, 1 less, three times, and negated.
const WRAPPING: &[(&[Form<'static>], u32, &[Step<'static>])] = &[
    (FIRST, 0, SQUARES),
    (FIRST, 0, &[READ, Step::Number(1), Step::Sub]),
    (FIRST, 0, &[READ, Step::Number(3), Step::Mul]),
    (FIRST, 0, &[READ, Step::Neg]),
];

#[test]
fn arithmetic_wraps(rt: HostRuntime) -> Result<(), Fail> {
    let alloc = rt.alloc();
    let plan = Plan {
        arrays: &[&[1]],
        loops: &[],
        statements: WRAPPING,
    };
    let nest = nest_of(alloc, &plan)?;
    let fill = Fill {
        a: 0,
        b: 2147483648,
    };
    let cells = ran(alloc, &nest, &[fill])?.ok_or("a sound nest")?;
    assert_eq!(rt; cells.as_slice(), [-9223372036854775805].as_slice());
    Ok(())
}

/// Whether `A[i] = 7` can be run for i from `low` to `high`, and the cells of A then.
fn sevens(alloc: Global, cells: u32, low: i64, high: i64) -> Result<Option<List<i64>>, Fail> {
    let plan = Plan {
        arrays: &[&[cells]],
        loops: &[(low, high)],
        statements: &[(&[(&[1], 0)], 0, &[Step::Number(7)])],
    };
    let nest = nest_of(alloc, &plan)?;
    Ok(ran(alloc, &nest, &[Fill { a: 1, b: 0 }])?)
}

#[test]
fn loops_run_from_the_low_to_the_high_end(rt: HostRuntime) -> Result<(), Fail> {
    let alloc = rt.alloc();
    let cases: [(i64, i64, [i64; 4]); 4] = [
        (0, 3, [7, 7, 7, 7]),
        (1, 2, [0, 7, 7, 3]),
        (2, 2, [0, 1, 7, 3]),
        (2, 1, [0, 1, 2, 3]),
    ];
    for (low, high, wanted) in cases {
        let cells = sevens(alloc, 4, low, high)?.ok_or("a sound nest")?;
        assert_eq!(rt; cells.as_slice(), wanted.as_slice(), "{low} to {high}");
    }
    assert!(rt; sevens(alloc, 4, 1, 4)?.is_none());
    assert!(rt; sevens(alloc, 4, -1, 0)?.is_none());
    Ok(())
}

/// `A[i + j] = i` for i and j below 3.
fn diagonals(alloc: Global, cells: u32) -> Result<Nest, Fail> {
    let plan = Plan {
        arrays: &[&[cells]],
        loops: &[(0, 2), (0, 2)],
        statements: &[(&[(&[1, 1], 0)], 0, &[Step::Iter(0)])],
    };
    nest_of(alloc, &plan)
}

/// One loop from 0 with one statement.
fn long(alloc: Global, high: i64) -> Result<Nest, Fail> {
    let plan = Plan {
        arrays: &[&[1]],
        loops: &[(0, high)],
        statements: &[(&[(&[0], 0)], 0, &[Step::Iter(0)])],
    };
    nest_of(alloc, &plan)
}

#[test]
fn work_and_subscripts_are_judged(rt: HostRuntime) -> Result<(), Fail> {
    let alloc = rt.alloc();
    assert!(rt;
        !is_sound(&diagonals(alloc, 4)?),
        "the last instance leaves the array"
    );
    assert!(rt; is_sound(&diagonals(alloc, 5)?));
    assert!(rt; is_sound(&long(alloc, 524287)?));
    assert!(rt;
        !is_sound(&long(alloc, 524288)?),
        "1048578 turns and instances"
    );
    Ok(())
}

/// `A[i] = i` in one loop, where a row of i is at least 0.
fn guarded(alloc: Global, cells: u32, head: Head, row: Form<'_>) -> Result<Nest, Fail> {
    let write = access(alloc, 0, &[(&[1], 0)])?;
    let right = Expr::Iter(0);
    let body = Body { write, right };
    let assign = Item::Assign { label: 0, body };
    let condition = if_of(alloc, row, one(alloc, assign)?)?;
    let items = one(alloc, loop_of(alloc, 0, head, one(alloc, condition)?)?)?;
    let arrays = one(alloc, array(alloc, &[cells])?)?;
    let nest = Nest::new(arrays, items).ok_or("a nest")?;
    Ok(nest)
}

const ZEROS: Fill = Fill { a: 0, b: 0 };

#[test]
fn a_loop_goes_on_by_its_step(rt: HostRuntime) -> Result<(), Fail> {
    let alloc = rt.alloc();
    let by_three = Head {
        step: 3,
        ..unit_head(1, 7)
    };
    let nest = guarded(alloc, 8, by_three, (&[0], 0))?;
    let cells = ran(alloc, &nest, &[ZEROS])?.ok_or("a sound nest")?;
    assert_eq!(rt; cells.as_slice(), [0, 1, 0, 0, 4, 0, 0, 7].as_slice());
    // The high end needs not be a value.
    let past = Head {
        step: 3,
        ..unit_head(1, 9)
    };
    assert!(rt; is_sound(&guarded(alloc, 8, past, (&[0], 0))?));
    assert!(rt; !is_sound(&guarded(alloc, 7, past, (&[0], 0))?));
    Ok(())
}

#[test]
fn items_run_where_their_condition_holds(rt: HostRuntime) -> Result<(), Fail> {
    let alloc = rt.alloc();
    // 2*i >= 3
    let nest = guarded(alloc, 4, unit_head(0, 3), (&[2], -3))?;
    let cells = ran(alloc, &nest, &[ZEROS])?.ok_or("a sound nest")?;
    assert_eq!(rt; cells.as_slice(), [0, 0, 2, 3].as_slice());
    // A[4] isn't there, and isn't written where i is at most 3.
    assert!(rt; is_sound(&guarded(alloc, 4, unit_head(0, 4), (&[-1], 3))?));
    assert!(rt; !is_sound(&guarded(alloc, 4, unit_head(0, 4), (&[-1], 4))?));
    Ok(())
}

#[test]
fn turns_count_by_steps_and_conditions_count_nothing(rt: HostRuntime) -> Result<(), Fail> {
    let alloc = rt.alloc();
    let never: Form<'_> = (&[0], -1);
    let by_two = |high| Head {
        step: 2,
        ..unit_head(0, high)
    };
    assert!(rt; is_sound(&guarded(alloc, 1, unit_head(0, 1048575), never)?));
    assert!(rt; !is_sound(&guarded(alloc, 1, unit_head(0, 1048576), never)?));
    assert!(rt; is_sound(&guarded(alloc, 1, by_two(2097151), never)?));
    assert!(rt; !is_sound(&guarded(alloc, 1, by_two(2097152), never)?));
    Ok(())
}
