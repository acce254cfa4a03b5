//! Each law can be called, and lists of two instances of `A[i mod 2] = number`, and a list of none.

ghost use Rattle.std.specs.Prelude.{◌≡◌, true, false, IfOk, [], ◌∷◌};
ghost use Rattle.ch_order.specs.Samples.{body, instance, named, pair, parity};
ghost use Rattle.ch_timed.specs.Vectors.{comes_before};

use ch_affine::{Aff, List};
use ch_nest::{Access, Body, Expr, Sub};
use ch_order::{
    arrays_hold_the_store, keeping_arrays_composes, kept_arrays_are_equal, legal_does_same,
    legal_list_runs_the_nest, legal_steps_do_same, neighbours_change_places, reversed_is_least,
    same_meaning,
};
use ch_timed::{Element, Identity, Label, Timed};
use std::alloc::{AllocError, Global};
use std::test::Fail;

/// An instance at 0 and one at `i`, in this order or the other way round.
#[derive(Clone, Copy)]
struct Pair {
    turned: bool,
    i: i64,
    number: i64,
}

#[derive(Clone, Copy)]
struct Nothing;

pub(crate) fn one<T: Drop>(alloc: Global, item: T) -> Result<List<T>, AllocError>
    ensures { IfOk result (λ list. list ≡ item ∷ []) }
{
    let mut list = List::new(alloc);
    list.push(item)?;
    Ok(list)
}

fn identity(alloc: Global, other: bool, i: i64) -> Result<Identity, AllocError>
    ensures { IfOk result (λ it. it ≡ named other i) }
{
    if other {
        return Ok(Identity {
            label: Label::Stmt(1),
            iters: one(alloc, i)?,
        });
    }
    Ok(Identity {
        label: Label::Stmt(0),
        iters: one(alloc, 0)?,
    })
}

fn sub(alloc: Global) -> Result<Sub, AllocError>
    ensures { IfOk result (λ it. it ≡ parity) }
{
    let form = Aff {
        coefs: one(alloc, 1)?,
        constant: 0,
    };
    Ok(Sub { form, modulus: 2 })
}

fn body(alloc: Global, number: i64) -> Result<Body, AllocError>
    ensures { IfOk result (λ it. it ≡ body number) }
{
    let write = Access {
        array: 0,
        subs: one(alloc, sub(alloc)?)?,
    };
    Ok(Body {
        write,
        right: Expr::Number(number),
    })
}

fn instance(
    alloc: Global,
    other: bool,
    i: i64,
    number: i64,
    place: i64,
) -> Result<Element, AllocError>
    ensures { IfOk result (λ e. e ≡ instance other i number place) }
{
    Ok(Element {
        identity: identity(alloc, other, i)?,
        vector: one(alloc, place)?,
        body: body(alloc, number)?,
    })
}

pub(crate) fn precedes(vector: &[i64], place: i64) -> bool
    ensures { result ≡ comes_before vector.now (place ∷ []) }
{
    let other: &[i64] = &[place];
    vector.cmp(other).is_lt()
}

impl Timed for Pair {
    ghost list = { λ p. pair p.turned p.i p.number };

    fn known(&self) {
        let _turned = self.turned;
    }

    fn after(&self, alloc: Global, vector: &[i64]) -> Result<Option<Element>, AllocError> {
        if precedes(vector, 0) {
            return Ok(Some(instance(alloc, self.turned, self.i, self.number, 0)?));
        }
        if precedes(vector, 1) {
            return Ok(Some(instance(alloc, !self.turned, self.i, self.number, 1)?));
        }
        Ok(None)
    }
}

impl Timed for Nothing {
    ghost list = { λ n. [] };

    fn known(&self) {}

    fn after(&self, _alloc: Global, _vector: &[i64]) -> Result<Option<Element>, AllocError> {
        Ok(None)
    }
}

fn plain(i: i64, number: i64) -> Pair
    ensures { result ≡ record { turned = false; i = i; number = number } }
{
    Pair {
        turned: false,
        i,
        number,
    }
}

fn turned(i: i64, number: i64) -> Pair
    ensures { result ≡ record { turned = true; i = i; number = number } }
{
    Pair {
        turned: true,
        i,
        number,
    }
}

#[test]
fn laws_are_called() {
    legal_does_same();
    keeping_arrays_composes();
    kept_arrays_are_equal();
    legal_steps_do_same();
    neighbours_change_places();
    arrays_hold_the_store();
    reversed_is_least();
    legal_list_runs_the_nest();
}

#[test]
fn compares_pairs(rt: HostRuntime) -> Result<(), Fail> {
    let alloc = rt.alloc();
    let cases = [
        // the same list
        (plain(3, 7), plain(3, 7), true),
        // other cells, so they may change places
        (plain(3, 7), turned(3, 7), true),
        // one cell
        (plain(4, 7), turned(4, 7), false),
        (turned(-2, 7), plain(-2, 7), false),
        // another instance, another body
        (plain(3, 7), plain(5, 7), false),
        (plain(3, 7), plain(3, 8), false),
    ];
    for (old, new, want) in &cases {
        assert_eq!(rt; same_meaning(alloc, old, new)?, *want);
    }
    assert!(rt; same_meaning(alloc, &Nothing, &Nothing)?);
    assert!(rt; !same_meaning(alloc, &Nothing, &plain(3, 7))?);
    Ok(())
}
