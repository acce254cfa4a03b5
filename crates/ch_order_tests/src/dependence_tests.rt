//! Lists of the three assignments `A[0] = 7`, `A[1] = A[0]` and `A[k] = 5`, each executed once.

ghost use Rattle.std.specs.Prelude.{◌≡◌, pos, IfOk};
ghost use Rattle.ch_nest.specs.declared.nest.Expr.TheVariants.{Number, Read};
ghost use Rattle.ch_order.specs.Samples.{access, assigned, last_write, reader_or_writer, three};

use crate::tests::{one, precedes};
use ch_affine::{Aff, List};
use ch_nest::{Access, Body, Expr, Sub};
use ch_order::same_meaning;
use ch_timed::{Element, Identity, Label, Timed};
use std::alloc::{AllocError, Global};
use std::test::Fail;

/// `A[0] = 7` before `A[1] = A[0]`, or the other way round where the reader is first. `A[k] = 5` is
/// executed behind both, or between them.
#[derive(Clone, Copy)]
struct Assignments {
    reader_first: bool,
    between: bool,
    k: i8,
}

/// `A[k]`.
fn access(alloc: Global, k: i8) -> Result<Access, AllocError>
    ensures { IfOk result (λ it. it ≡ access k) }
{
    let form = Aff {
        coefs: List::new(alloc),
        constant: i64::from(k),
    };
    Ok(Access {
        array: 0,
        subs: one(alloc, Sub { form, modulus: 0 })?,
    })
}

/// `A[k] = right`, the statement of this number.
fn assigned(
    alloc: Global,
    label: u32,
    k: i8,
    right: Expr,
    place: i64,
) -> Result<Element, AllocError>
    ensures { IfOk result (λ e. e ≡ assigned label k right place) }
{
    Ok(Element {
        identity: Identity {
            label: Label::Stmt(label),
            iters: List::new(alloc),
        },
        vector: one(alloc, place)?,
        body: Body {
            write: access(alloc, k)?,
            right,
        },
    })
}

fn reader_or_writer(alloc: Global, reads: bool, place: i64) -> Result<Element, AllocError>
    ensures { IfOk result (λ e. e ≡ reader_or_writer reads place) }
{
    if reads {
        let right = Expr::Read(access(alloc, 0)?);
        return assigned(alloc, 1, 1, right, place);
    }
    assigned(alloc, 0, 0, Expr::Number(7), place)
}

fn last_write(alloc: Global, k: i8, place: i64) -> Result<Element, AllocError>
    ensures { IfOk result (λ e. e ≡ last_write k place) }
{
    assigned(alloc, 2, k, Expr::Number(5), place)
}

impl Timed for Assignments {
    ghost list = { λ t. three t.reader_first t.between t.k };

    #[tactic(auto, using(ch_order::proofs::SampleLists::three_fine))]
    fn known(&self) {
        let _reader_first = self.reader_first;
        let _between = self.between;
    }

    fn after(&self, alloc: Global, vector: &[i64]) -> Result<Option<Element>, AllocError> {
        if precedes(vector, 0) {
            return Ok(Some(reader_or_writer(alloc, self.reader_first, 0)?));
        }
        if precedes(vector, 1) {
            if self.between {
                return Ok(Some(last_write(alloc, self.k, 1)?));
            }
            return Ok(Some(reader_or_writer(alloc, !self.reader_first, 1)?));
        }
        if precedes(vector, 2) {
            if self.between {
                return Ok(Some(reader_or_writer(alloc, !self.reader_first, 2)?));
            }
            return Ok(Some(last_write(alloc, self.k, 2)?));
        }
        Ok(None)
    }
}

fn three(reader_first: bool, between: bool, k: i8) -> Assignments
    ensures { result ≡ record { reader_first = reader_first; between = between; k = k } }
{
    Assignments {
        reader_first,
        between,
        k,
    }
}

#[test]
fn compares_dependences(rt: HostRuntime) -> Result<(), Fail> {
    let alloc = rt.alloc();
    let cases = [
        // the same list
        (three(false, false, 0), three(false, false, 0), true),
        // A[0] is read before it is written
        (three(false, false, 2), three(true, false, 2), false),
        // and the other way round
        (three(true, false, 2), three(false, false, 2), false),
        // A[2] is written earlier, which nothing else accesses
        (three(false, false, 2), three(false, true, 2), true),
        // A[0] is written anew before it is read
        (three(false, false, 0), three(false, true, 0), false),
        // A[1] has the other value at the end
        (three(false, false, 1), three(false, true, 1), false),
        // A[0] has the other value at the end
        (three(true, false, 0), three(true, true, 0), false),
        // A[1] is written earlier, but still behind its other write
        (three(true, false, 1), three(true, true, 1), true),
        // another cell is written
        (three(false, false, 2), three(false, false, 3), false),
    ];
    for (old, new, want) in &cases {
        assert_eq!(rt; same_meaning(alloc, old, new)?, *want);
    }
    Ok(())
}
