//! The product of two square matrices as a nest.
ghost use Rattle.std.specs.Prelude.{◌≡◌, ◌≤◌, pos, IfOk, IsTrue};
ghost use Rattle.std.specs.Char.{is_ascii};
ghost use Rattle.std.specs.List.{list_all};
ghost use Rattle.ch_nest.specs.Sound.{is_sound};
ghost use Rattle.ch_demo.specs.Product.{adds_products, cell, coefs, ends, iterator, multiply, product, square, turns};

use ch_affine::{Aff, Boxed, List, Text};
use ch_nest::{Access, ArrayDecl, Body, Expr, Item, Nest, Sub};
use std::alloc::{AllocError, Global};

/// The coefficients of the three iterators in the form that is the iterator of this number.
fn coefs(alloc: Global, level: u32) -> Result<List<i64>, AllocError>
    ensures { IfOk result (λ list. list ≡ coefs level) }
{
    if level == 0 {
        List::from_slice(alloc, &[1, 0, 0])
    } else if level == 1 {
        List::from_slice(alloc, &[0, 1, 0])
    } else {
        List::from_slice(alloc, &[0, 0, 1])
    }
}

fn iterator(alloc: Global, level: u32) -> Result<Sub, AllocError>
    ensures { IfOk result (λ sub. sub ≡ iterator level) }
{
    let coefs = coefs(alloc, level)?;
    Ok(Sub {
        form: Aff { coefs, constant: 0 },
        modulus: 0,
    })
}

/// A cell of an array, named by two of the iterators.
fn cell(alloc: Global, array: u32, row: u32, column: u32) -> Result<Access, AllocError>
    ensures { IfOk result (λ access. access ≡ cell array row column) }
{
    let mut subs = List::new(alloc);
    subs.push(iterator(alloc, row)?)?;
    subs.push(iterator(alloc, column)?)?;
    Ok(Access { array, subs })
}

/// `A[i][k] * B[k][j]`.
fn multiply(alloc: Global) -> Result<Expr, AllocError>
    ensures { IfOk result (λ right. right ≡ multiply) }
{
    let first = Expr::Read(cell(alloc, 0, 0, 2)?);
    let second = Expr::Read(cell(alloc, 1, 2, 1)?);
    let first = Boxed::new(alloc, first)?;
    let second = Boxed::new(alloc, second)?;
    Ok(Expr::Mul(first, second))
}

/// `C[i][j] = C[i][j] + A[i][k] * B[k][j]`.
fn adds_products(alloc: Global) -> Result<Body, AllocError>
    ensures { IfOk result (λ body. body ≡ adds_products) }
{
    let write = cell(alloc, 2, 0, 1)?;
    let before = Boxed::new(alloc, Expr::Read(cell(alloc, 2, 0, 1)?))?;
    let more = Boxed::new(alloc, multiply(alloc)?)?;
    Ok(Body {
        write,
        right: Expr::Add(before, more),
    })
}

/// A constant as a form below so many loops, as the one end of a loop.
#[tactic(auto, using(crate::proofs::Forms::small_ends))]
fn ends(alloc: Global, around: usize, constant: u32) -> Result<List<Aff>, AllocError>
    requires { around ≤ 2 }
    ensures { IfOk result (λ forms. forms ≡ ends around (pos constant)) }
{
    let coefs = List::from_vec(vec![in alloc; 0i64; around]?);
    let constant = i64::from(constant);
    let mut forms = List::new(alloc);
    forms.push(Aff { coefs, constant })?;
    Ok(forms)
}

/// A loop below so many others, from 0 on with n turns.
fn turns(alloc: Global, around: usize, n: u32, item: Item) -> Result<Item, AllocError>
    requires some { 1 ≤ n }
    requires shallow { around ≤ 2 }
    ensures { IfOk result (λ made. made ≡ turns around n item) }
{
    let lows = ends(alloc, around, 0)?;
    let highs = ends(alloc, around, n - 1)?;
    let mut items = List::new(alloc);
    items.push(item)?;
    Ok(Item::Loop {
        lows,
        highs,
        step: 1,
        items,
    })
}

fn square(alloc: Global, name: &[u8], n: u32) -> Result<ArrayDecl, AllocError>
    requires { IsTrue (list_all is_ascii name.now) }
    ensures { IfOk result (λ array. array ≡ square name.now n) }
{
    Ok(ArrayDecl {
        name: Text::of(alloc, name)?,
        extents: List::from_slice(alloc, &[n, n])?,
    })
}

fn squares(alloc: Global, n: u32) -> Result<List<ArrayDecl>, AllocError>
    ensures { IfOk result (λ arrays. arrays ≡ (product n).arrays) }
{
    let mut arrays = List::new(alloc);
    arrays.push(square(alloc, b"A", n)?)?;
    arrays.push(square(alloc, b"B", n)?)?;
    arrays.push(square(alloc, b"C", n)?)?;
    Ok(arrays)
}

fn loops(alloc: Global, n: u32) -> Result<List<Item>, AllocError>
    requires { 1 ≤ n }
    ensures { IfOk result (λ items. items ≡ (product n).items) }
{
    let item = Item::Assign {
        label: 0,
        body: adds_products(alloc)?,
    };
    let inner = turns(alloc, 2, n, item)?;
    let middle = turns(alloc, 1, n, inner)?;
    let outer = turns(alloc, 0, n, middle)?;
    let mut items = List::new(alloc);
    items.push(outer)?;
    Ok(items)
}

/// The product of two n by n matrices: the nest of the arrays A, B and C.
#[tactic(auto, using(crate::proofs::Sizes::is_product, crate::proofs::Sizes::sound_product))]
pub(crate) fn product(alloc: Global, n: u32) -> Result<Nest, AllocError>
    requires low { 8 ≤ n }
    requires high { n ≤ 16 }
    ensures value { IfOk result (λ nest. nest ≡ product n) }
    ensures sound { IfOk result (λ nest. IsTrue (is_sound nest)) }
{
    let arrays = squares(alloc, n)?;
    let items = loops(alloc, n)?;
    let Some(nest) = Nest::new(arrays, items) else {
        unreachable!()
    };
    Ok(nest)
}
