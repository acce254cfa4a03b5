ghost use Rattle.std.specs.Prelude.{◌≡◌, ◌≤◌, ◌<◌, ◌^◌, ◌+ℤ◌, ◌*ℤ◌, ◌≤ℤ◌, ◌+◌, ℤ, pos};
ghost use Rattle.std.specs.Prelude.{length, unsigned_abs, Err, IfOk, IfErr, IfSome, IfNone};
ghost use Rattle.std.specs.List.{All, find};
ghost use Rattle.ch_affine.specs.Affine.{IsAtMost};
ghost use Rattle.ch_affine.specs.Combined.{combined, combined_coefs, first_wide, is_wide};
ghost use Rattle.ch_affine.specs.declared.combination.AffError.TheVariants.{Wide, Memory};

use crate::aff::Aff;
use crate::list::List;
use crate::wide::{plus, scaled};
use std::alloc::{AllocError, Global};

/// Why two forms could not be combined.
#[derive(Debug, Clone, Copy, PartialEq, Eq)]
pub enum AffError {
    /// A coefficient or the constant, of this exact value, passes the limit.
    Wide { value: i128 },
    Memory,
}

impl From<AllocError> for AffError {
    ghost from_gives = { λ _ e. e ≡ Memory };

    fn from(_e: AllocError) -> AffError {
        AffError::Memory
    }
}

/// The form `a * x + b * y`, of as many variables. `Wide` has the first number of it, the
/// coefficients before the constant, whose magnitude is above `limit`. Memory is taken only where
/// there is none.
pub fn combine(alloc: Global, a: i64, x: &Aff, b: i64, y: &Aff, limit: i64) -> Result<Aff, AffError>
    requires same { length x.now.coefs ≡ length y.now.coefs }
    requires limit_low { pos 0 ≤ℤ limit }
    requires limit_high { limit ≤ℤ pos (2 ^ 60) }
    ensures wide { IfSome (first_wide limit (combined a x.now b y.now)) (λ value.
        result ≡ Err (Wide value)) }
    ensures memory { IfNone (first_wide limit (combined a x.now b y.now)) (IfErr result (λ e.
        e ≡ Memory)) }
    ensures value { IfOk result (λ form. form ≡ combined a x.now b y.now) }
{
    let xs = x.coefs.as_slice();
    let ys = y.coefs.as_slice();
    let constant = mixed(a, x.constant, b, y.constant);
    if let Some(value) = first_wide_of(a, xs, b, ys, constant, limit) {
        return Err(AffError::Wide { value });
    }
    let coefs = mixed_coefs(alloc, a, xs, b, ys)?;
    Ok(Aff {
        coefs,
        constant: narrowed(constant),
    })
}

fn mixed(a: i64, x: i64, b: i64, y: i64) -> i128
    requires x_small { IsAtMost (2 ^ 60) x }
    requires y_small { IsAtMost (2 ^ 60) y }
    ensures value { result ≡ a *ℤ x +ℤ b *ℤ y }
{
    plus(scaled(a, x), scaled(b, y))
}

fn narrowed(value: i128) -> i64
    requires { IsAtMost (2 ^ 60) value }
    ensures { result ≡ value }
{
    value as i64
}

fn passes(value: i128, limit: i64) -> bool
    requires { pos 0 ≤ℤ limit }
    ensures { result ≡ is_wide limit value }
{
    value.unsigned_abs() > limit as u128
}

fn first_wide_of(a: i64, xs: &[i64], b: i64, ys: &[i64], constant: i128, limit: i64) -> Option<i128>
    requires same { length xs.now ≡ length ys.now }
    requires xs_small { All (IsAtMost (2 ^ 60)) xs.now }
    requires ys_small { All (IsAtMost (2 ^ 60)) ys.now }
    requires limit { pos 0 ≤ℤ limit }
    ensures { result ≡ first_wide limit (record { coefs = combined_coefs a xs.now b ys.now; constant = constant }) }
{
    for k in 0..xs.len() {
        let value = mixed(a, xs[k], b, ys[k]);
        if passes(value, limit) {
            return Some(value);
        }
    }
    if passes(constant, limit) {
        return Some(constant);
    }
    None
}

fn mixed_coefs(
    alloc: Global,
    a: i64,
    xs: &[i64],
    b: i64,
    ys: &[i64],
) -> Result<List<i64>, AllocError>
    requires same { length xs.now ≡ length ys.now }
    requires xs_small { All (IsAtMost (2 ^ 60)) xs.now }
    requires ys_small { All (IsAtMost (2 ^ 60)) ys.now }
    requires small { All (IsAtMost (2 ^ 60)) (combined_coefs a xs.now b ys.now) }
    ensures { IfOk result (λ coefs. coefs ≡ combined_coefs a xs.now b ys.now) }
{
    let mut coefs = List::with_capacity(alloc, xs.len())?;
    for k in 0..xs.len() {
        coefs.push(narrowed(mixed(a, xs[k], b, ys[k])))?;
    }
    Ok(coefs)
}
