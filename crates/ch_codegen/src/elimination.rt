//! Rows over the outer levels of a piece, by Fourier and Motzkin's elimination of the inner ones:
//! they hold at each of its points, and may hold elsewhere.

ghost use Rattle.std.specs.Prelude.{◌≡◌, ◌≤◌, ◌<◌, ◌^◌, ◌≤ℤ◌, pos, length, unsigned_abs, IfOk, IfSome, IsTrue};
ghost use Rattle.ch_affine.specs.Affine.{IsAtMost};
ghost use Rattle.ch_affine.specs.Rows.{IsSystem};
ghost use Rattle.ch_timed.specs.Members.{Each};
ghost use Rattle.ch_codegen.specs.Bounds.{AreRowsOf, AreSound, Extends, HasSmallEnd, IsPlain, IsSound};

use crate::bounds::is_last;
use crate::plain::has_small_end;
use crate::same::same_form;
use ch_affine::{Aff, AffError, LARGEST_COEFFICIENT, List, System, combine, copied_forms};
use ch_space::Piece;
use std::alloc::{AllocError, Global};

/// The most rows of one elimination.
const MOST_ROWS: usize = 64;

/// The most rows by elimination that may bound a piece's loop beside its own.
const MOST_FURTHER: usize = 16;

fn magnitude(coef: i64) -> i64
    requires { IsAtMost (2 ^ 60) coef }
    ensures { result ≡ pos (unsigned_abs coef) }
{
    if coef < 0 { -coef } else { coef }
}

/// The sum of multiples of two rows in which the variable of this number falls away, where its
/// coefficients have other signs. None where a number would be too large.
fn met(
    alloc: Global,
    system: &System,
    up: &Aff,
    down: &Aff,
    level: usize,
) -> Result<Option<Aff>, AllocError>
    requires up { IsSound system.now up.now }
    requires down { IsSound system.now down.now }
    requires inside { level < system.now.vars }
    ensures { IfOk result (λ o. IfSome o (λ f. IsSound system.now f)) }
{
    let a = magnitude(down.coefs.as_slice()[level]);
    let b = magnitude(up.coefs.as_slice()[level]);
    match combine(alloc, a, up, b, down, LARGEST_COEFFICIENT) {
        Ok(row) => Ok(Some(row)),
        Err(AffError::Wide { .. }) => Ok(None),
        Err(AffError::Memory) => Err(AllocError),
    }
}

fn sign_at(row: &Aff, level: usize) -> i64
    requires { level < length row.now.coefs }
{
    row.coefs.as_slice()[level].signum()
}

/// Adds to the rows those in which a row meets others.
fn meet_all(
    alloc: Global,
    system: &System,
    found: List<Aff>,
    up: &Aff,
    rows: &[Aff],
    level: usize,
) -> Result<List<Aff>, AllocError>
    requires found { AreSound system.now found }
    requires up { IsSound system.now up.now }
    requires rows { AreSound system.now rows.now }
    requires inside { level < system.now.vars }
    ensures { IfOk result (λ all. AreSound system.now all) }
{
    let mut all = found;
    for row in rows {
        if all.len() < MOST_ROWS && sign_at(row, level) < 0 {
            if let Some(row) = met(alloc, system, up, row, level)? {
                all.push(row)?;
            }
        }
    }
    Ok(all)
}

/// Rows without the variable of this number that follow from these: those that have none of it, and
/// those in which two meet.
fn eliminated(
    alloc: Global,
    system: &System,
    rows: &[Aff],
    level: usize,
) -> Result<List<Aff>, AllocError>
    requires rows { AreSound system.now rows.now }
    requires inside { level < system.now.vars }
    ensures { IfOk result (λ all. AreSound system.now all) }
{
    let mut all = List::new(alloc);
    for row in rows {
        let sign = sign_at(row, level);
        if sign == 0 && all.len() < MOST_ROWS {
            all.push(row.copied(alloc)?)?;
        } else if sign > 0 {
            all = meet_all(alloc, system, all, row, rows, level)?;
        }
    }
    Ok(all)
}

/// Whether the row is one of these.
fn has_row(rows: &[Aff], row: &Aff) -> bool {
    for other in rows {
        if same_form(other, row) {
            return true;
        }
    }
    false
}

/// Whether the row can bound the loop inside `depth` others, whose variable is its last one, and is
/// none of those that are known, of which there may be so many at most.
fn is_further(known: &[Aff], most: usize, row: &Aff, depth: usize) -> bool
    requires { depth < length row.now.coefs }
    ensures { IsTrue result → HasSmallEnd row.now }
{
    known.len() < most && is_last(row, depth) && has_small_end(row) && !has_row(known, row)
}

/// Adds those rows that can bound the loop inside `depth` others.
fn with_plain(
    alloc: Global,
    system: &System,
    own: List<Aff>,
    rows: &[Aff],
    depth: usize,
) -> Result<List<Aff>, AllocError>
    requires inside { depth < system.now.vars }
    requires own { AreSound system.now own }
    requires small { Each HasSmallEnd own }
    requires rows { AreSound system.now rows.now }
    ensures sound { IfOk result (λ all. AreSound system.now all) }
    ensures small { IfOk result (λ all. Each HasSmallEnd all) }
    ensures own { IfOk result (λ all. Extends own all) }
{
    let mut all = own;
    let most = all.len().saturating_add(MOST_FURTHER);
    for row in rows {
        if is_further(all.as_slice(), most, row, depth) {
            all.push(row.copied(alloc)?)?;
        }
    }
    Ok(all)
}

fn own_rows(alloc: Global, system: &System) -> Result<List<Aff>, AllocError>
    ensures { IfOk result (λ rows. rows ≡ system.now.rows) }
{
    copied_forms(alloc, system.rows.as_slice())
}

fn variables(system: &System) -> usize
    ensures { result ≡ system.now.vars }
{
    system.vars as usize
}

/// The rows of a piece, and others over the levels up to `depth` that hold at each of its points.
pub(crate) fn rows_to(alloc: Global, piece: &Piece, depth: usize) -> Result<List<Aff>, AllocError>
    requires system { IsSystem piece.now.system }
    requires plain { IsPlain piece.now }
    requires deep { depth < length piece.now.system.boxes }
    ensures rows { IfOk result (λ rows. AreRowsOf piece.now rows) }
    ensures sound { IfOk result (λ rows. AreSound piece.now.system rows) }
    ensures small { IfOk result (λ rows. Each HasSmallEnd rows) }
{
    let mut rows = own_rows(alloc, &piece.system)?;
    let mut level = variables(&piece.system);
    while level > depth + 1 {
        level -= 1;
        rows = eliminated(alloc, &piece.system, rows.as_slice(), level)?;
    }
    let own = own_rows(alloc, &piece.system)?;
    let all = with_plain(alloc, &piece.system, own, rows.as_slice(), depth)?;
    Ok(all)
}
