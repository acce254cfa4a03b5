//! The arguments of commands as numbers.

ghost use Rattle.std.specs.Prelude.{◌≡◌, ◌<◌, length, IfOk, IfSome};
ghost use Rattle.ch_variant.specs.Arguments.{array_of, number, numbers};

use ch_affine::{List, Text};
use ch_nest::{ArrayDecl, Nest};
use ch_script::Arg;
use std::alloc::{AllocError, Global};

/// What the words of a command are read by: the nest, whose arrays have the names, and the values
/// of the parameters.
#[derive(Clone, Copy, Debug)]
pub(crate) struct Setting<'a> {
    pub(crate) nest: &'a Nest,
    pub(crate) values: &'a [i64],
}

fn find_array(arrays: &[ArrayDecl], name: &[u8]) -> Option<usize>
    ensures exact { result ≡ array_of arrays.now name.now }
    ensures inside { IfSome result (λ k. k < length arrays.now) }
{
    arrays.iter().position(|a| a.name.as_bytes() == name)
}

/// The number of the nest's array of that name.
pub(crate) fn array_of(nest: &Nest, name: &Text) -> Option<u32>
    ensures { result ≡ array_of nest.now.arrays name.now }
{
    nest.known();
    match find_array(nest.arrays.as_slice(), name.as_bytes()) {
        None => None,
        Some(k) => Some(k as u32),
    }
}

/// The number, or the value of the parameter; 0 for one that isn't there.
pub(crate) fn number(values: &[i64], arg: Arg) -> i64
    ensures { result ≡ number values.now arg }
{
    match arg {
        Arg::Number(number) => number,
        Arg::Param(k) => values.get(k as usize).copied().unwrap_or(0),
    }
}

pub(crate) fn numbers(alloc: Global, values: &[i64], args: &[Arg]) -> Result<List<i64>, AllocError>
    ensures { IfOk result (λ list. list ≡ numbers values.now args.now) }
{
    let mut list = List::with_capacity(alloc, args.len())?;
    for arg in args {
        list.push(number(values, *arg))?;
    }
    Ok(list)
}
