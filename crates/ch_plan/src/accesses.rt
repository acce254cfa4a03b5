//! Accesses made ready: the place of each among all cells as one sum over the values of the loops
//! around. The strides of the rows and the forms of the iterators are multiplied in, modulo 2^64,
//! which changes no place that there is.

ghost use Rattle.std.specs.Prelude.{◌≡◌, ◌≤◌, ◌<◌, ℕ, ℤ, pos, ◌+ℤ◌, ◌*ℤ◌};
ghost use Rattle.std.specs.Prelude.{List, length, map, take, IfOk, OnOk};
ghost use Rattle.std.specs.Int.{int_wrap, w64};
ghost use Rattle.ch_affine.specs.Affine.{dot, value};
ghost use Rattle.ch_nest.specs.Arrays.{cells_in};
ghost use Rattle.ch_nest.specs.Run.{sub_value};
ghost use Rattle.ch_plan.specs.Ready.{AreBases, HaveDepth, IsPoint, IsResidue, IsSpot, IsSumOf};
ghost use Rattle.ch_plan.specs.Ready.{SubsFit, drafted, extents_in, formed, iters_at, strided};
ghost use Rattle.ch_plan.specs.Planned.{mixed, spot_value, weighed};

use crate::plan::{Residue, Spot, Sum, Term, Weight};
use crate::sums::{plus, times};
use ch_affine::{Aff, List};
use ch_nest::{Access, Sub};
use std::alloc::{AllocError, Global};

/// An array or a buffer, and where its first cell is among all cells, modulo 2^64.
#[derive(Drop)]
pub struct Placed {
    pub base: i64,
    pub extents: List<u32>,
}

/// Where a statement stands: the arrays and buffers, its iterators as forms of the values of the
/// loops around, and how many loops these are.
#[derive(Drop)]
pub struct Site<'a> {
    pub arrays: &'a [Placed],
    pub origin: &'a [Aff],
    pub around: usize,
}

/// A place that is being added up: a form over the loops around, and residues.
#[derive(Drop)]
pub(crate) struct Draft {
    coefs: Vec<i64>,
    constant: i64,
    residues: List<Residue>,
}

/// The coefficients that aren't 0.
fn terms_of(alloc: Global, coefs: &[i64]) -> Result<List<Term>, AllocError>
    ensures { IfOk result (λ terms. (point : List ℤ) → weighed terms point ≡ dot coefs.now point) }
{
    let mut terms = List::new(alloc);
    for k in 0..coefs.len() {
        if coefs[k] != 0 {
            terms.push(Term {
                level: k,
                coef: coefs[k],
            })?;
        }
    }
    Ok(terms)
}

pub fn sum_of(alloc: Global, form: &Aff) -> Result<Sum, AllocError>
    ensures { IfOk result (IsSumOf form.now) }
{
    let terms = terms_of(alloc, form.coefs.as_slice())?;
    Ok(Sum {
        terms,
        constant: form.constant,
    })
}

/// Adds a multiple of other coefficients.
fn add_multiples(coefs: &mut [i64], factor: i64, others: &[i64])
    requires { length others.now ≡ length coefs.old }
    ensures long { length coefs.new ≡ length coefs.old }
    ensures value { (xs : List ℤ) → int_wrap w64 (dot coefs.new xs)
        ≡ int_wrap w64 (dot coefs.old xs +ℤ factor *ℤ dot others.now xs) }
{
    for k in 0..coefs.len() {
        coefs[k] = plus(coefs[k], times(factor, others[k]));
    }
}

impl Draft {
    /// A place with this constant.
    fn new(alloc: Global, around: usize, constant: i64) -> Result<Draft, AllocError>
        ensures long { IfOk result (λ d. length d.coefs.items ≡ around) }
        ensures value { IfOk result (λ d. (point : List ℤ) → drafted d around point ≡ constant) }
    {
        let coefs = vec![in alloc; 0i64; around]?;
        Ok(Draft {
            coefs,
            constant,
            residues: List::new(alloc),
        })
    }

    /// Adds a multiple of a form over the loops around.
    fn add_form(&mut self, factor: i64, form: &Aff)
        requires { length form.now.coefs ≡ length self.old.coefs.items }
        ensures long { length self.new.coefs.items ≡ length self.old.coefs.items }
        ensures residues { self.new.residues ≡ self.old.residues }
        ensures value { (xs : List ℤ) → int_wrap w64 (formed self.new xs)
            ≡ int_wrap w64 (formed self.old xs +ℤ factor *ℤ value form.now xs) }
    {
        add_multiples(self.coefs.as_mut_slice(), factor, form.coefs.as_slice());
        self.constant = plus(self.constant, times(factor, form.constant));
    }

    /// Adds a multiple of a form over iterators, which are forms over the loops around themselves.
    fn add_composed(&mut self, factor: i64, form: &Aff, origin: &[Aff])
        requires same { length form.now.coefs ≡ length origin.now }
        requires origin { HaveDepth (length self.old.coefs.items) origin.now }
        ensures long { length self.new.coefs.items ≡ length self.old.coefs.items }
        ensures residues { self.new.residues ≡ self.old.residues }
        ensures value { (xs : List ℤ) → int_wrap w64 (formed self.new xs)
            ≡ int_wrap w64 (formed self.old xs +ℤ factor *ℤ value form.now (iters_at origin.now xs)) }
    {
        let weights = form.coefs.as_slice();
        self.constant = plus(self.constant, times(factor, form.constant));
        for k in 0..weights.len() {
            self.add_form(times(factor, weights[k]), &origin[k]);
        }
    }

    /// The place as it is taken on a walk.
    fn finish(self, alloc: Global) -> Result<Spot, AllocError>
        ensures { IfOk result (λ spot. (point : List ℤ)
            → spot_value point spot ≡ int_wrap w64 (drafted self (length self.coefs.items) point)) }
    {
        let Draft {
            coefs,
            constant,
            residues,
        } = self;
        let terms = terms_of(alloc, coefs.as_slice())?;
        let sum = Sum { terms, constant };
        Ok(Spot { sum, residues })
    }
}

/// The multiples of iterators whose coefficients aren't 0.
fn weights_of(alloc: Global, coefs: &[i64], site: &Site) -> Result<List<Weight>, AllocError>
    requires same { length coefs.now ≡ length site.now.origin.now }
    requires origin { HaveDepth site.now.around site.now.origin.now }
    ensures { IfOk result (λ weights. (point : List ℤ)
        → IsPoint site.now.origin.now site.now.around point
        → mixed weights point
        ≡ dot coefs.now (iters_at site.now.origin.now (take site.now.around point))) }
{
    let mut weights = List::new(alloc);
    for k in 0..coefs.len() {
        if coefs[k] != 0 {
            let sum = sum_of(alloc, &site.origin[k])?;
            weights.push(Weight {
                coef: coefs[k],
                sum,
            })?;
        }
    }
    Ok(weights)
}

fn residue_of(alloc: Global, sub: &Sub, stride: i64, site: &Site) -> Result<Residue, AllocError>
    requires same { length sub.now.form.coefs ≡ length site.now.origin.now }
    requires origin { HaveDepth site.now.around site.now.origin.now }
    requires modulus { 1 ≤ sub.now.modulus }
    ensures { IfOk result (IsResidue site.now.origin.now site.now.around sub.now stride) }
{
    let form = &sub.form;
    let weights = weights_of(alloc, form.coefs.as_slice(), site)?;
    Ok(Residue {
        weights,
        constant: form.constant,
        modulus: sub.modulus,
        stride,
    })
}

/// Adds a subscript, a step of which is worth `stride` cells.
fn add_sub(
    alloc: Global,
    draft: &mut Draft,
    sub: &Sub,
    stride: i64,
    site: &Site,
) -> Result<(), AllocError>
    requires long { length draft.old.coefs.items ≡ site.now.around }
    requires same { length sub.now.form.coefs ≡ length site.now.origin.now }
    requires origin { HaveDepth site.now.around site.now.origin.now }
    ensures long { length draft.new.coefs.items ≡ site.now.around }
    ensures value { OnOk result ((point : List ℤ)
        → IsPoint site.now.origin.now site.now.around point
        → int_wrap w64 (drafted draft.new site.now.around point)
        ≡ int_wrap w64 (drafted draft.old site.now.around point
        +ℤ stride *ℤ sub_value (iters_at site.now.origin.now (take site.now.around point)) sub.now)) }
{
    if sub.modulus == 0 {
        draft.add_composed(stride, &sub.form, site.origin);
        return Ok(());
    }
    let residue = residue_of(alloc, sub, stride, site)?;
    draft.residues.push(residue)
}

/// How many cells an array of these extents has, modulo 2^64.
pub fn stride(extents: &[u32]) -> i64
    ensures { result ≡ int_wrap w64 (pos (cells_in extents.now)) }
{
    let mut cells = 1;
    for k in 0..extents.len() {
        cells = times(cells, i64::from(extents[k]));
    }
    cells
}

/// Adds subscripts, a step of the last one being worth 1 cell.
fn add_subs(
    alloc: Global,
    draft: &mut Draft,
    extents: &[u32],
    subs: &[Sub],
    site: &Site,
) -> Result<(), AllocError>
    requires long { length draft.old.coefs.items ≡ site.now.around }
    requires subs { SubsFit (length site.now.origin.now) subs.now }
    requires origin { HaveDepth site.now.around site.now.origin.now }
    ensures long { length draft.new.coefs.items ≡ site.now.around }
    ensures value { OnOk result ((point : List ℤ)
        → IsPoint site.now.origin.now site.now.around point
        → int_wrap w64 (drafted draft.new site.now.around point)
        ≡ int_wrap w64 (drafted draft.old site.now.around point
        +ℤ strided extents.now
        (map (sub_value (iters_at site.now.origin.now (take site.now.around point))) subs.now))) }
{
    match extents {
        [] => Ok(()),
        [_, inner @ ..] => match subs {
            [] => Ok(()),
            [sub, others @ ..] => {
                add_sub(alloc, draft, sub, stride(inner), site)?;
                add_subs(alloc, draft, inner, others, site)
            }
        },
    }
}

pub fn spot_of(alloc: Global, access: &Access, site: &Site) -> Result<Spot, AllocError>
    requires bases { AreBases site.now.arrays.now }
    requires origin { HaveDepth site.now.around site.now.origin.now }
    requires array { access.now.array < length site.now.arrays.now }
    requires subs { SubsFit (length site.now.origin.now) access.now.subs }
    ensures { IfOk result (IsSpot (extents_in site.now.arrays.now) site.now.origin.now
        site.now.around access.now) }
{
    let placed = &site.arrays[access.array as usize];
    let mut draft = Draft::new(alloc, site.around, placed.base)?;
    let extents = placed.extents.as_slice();
    add_subs(alloc, &mut draft, extents, access.subs.as_slice(), site)?;
    draft.finish(alloc)
}
