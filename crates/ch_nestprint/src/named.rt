ghost use Rattle.std.specs.Prelude.{◌≡◌, [], ◌∷◌, ◌++◌, replicate, IfOk, OnOk, IsTrue, codes};
ghost use Rattle.std.specs.List.{list_all, list_any, prefix_len};
ghost use Rattle.std.specs.Char.{is_ascii};
ghost use Rattle.ch_nestprint.specs.Names.{array_name, is_like, is_taken};
ghost use Rattle.ch_nestprint.specs.Names.{is_underscore, iterator_name, letters_for};
ghost use Rattle.ch_nestprint.specs.Names.{longest, made_name, minus_name};

use crate::symbol::{Symbol, name};
use ch_affine::{List, Text};
use ch_nest::ArrayDecl;
use ch_print::put_number;
use std::alloc::{AllocError, Global};

/// The length of the longest name of an array.
fn longest(arrays: &[ArrayDecl]) -> usize
    ensures { result ≡ longest arrays.now }
{
    let mut most = 0usize;
    for array in arrays {
        most = most.max(array.name.len());
    }
    most
}

/// How many underscores stand in front.
fn underscores(bytes: &[u8]) -> usize
    ensures { result ≡ prefix_len is_underscore bytes.now }
{
    bytes.iter().take_while(|b| **b == b'_').count()
}

/// Whether a name has this beginning, and so many underscores behind it.
fn is_like(beginning: &[u8], letters: usize, name: &[u8]) -> bool
    ensures { result ≡ is_like beginning.now letters name.now }
{
    name.starts_with(beginning) && underscores(&name[beginning.len()..]) == letters
}

fn is_taken(letters: usize, array: &ArrayDecl) -> bool
    ensures { result ≡ is_taken letters array.now }
{
    let name = array.name.as_bytes();
    is_like(b"i", letters, name) || is_like(b"minus", letters, name)
}

fn are_taken(letters: usize, arrays: &[ArrayDecl]) -> bool
    ensures { result ≡ list_any (is_taken letters) arrays.now }
{
    arrays.iter().any(|array| is_taken(letters, array))
}

/// The fewest underscores that no array has taken for a name of its own.
#[tactic(auto, using(crate::proofs::FirstFree::stays, crate::proofs::FirstFree::goes_on, crate::proofs::FirstFree::ends))]
pub fn letters_for(arrays: &[ArrayDecl]) -> usize
    ensures { result ≡ letters_for arrays.now }
{
    let most = longest(arrays);
    for letters in 0..most {
        if !are_taken(letters, arrays) {
            return letters;
        }
    }
    most
}

fn made_name(
    alloc: Global,
    beginning: &[u8],
    letters: usize,
    number: u64,
) -> Result<Text, AllocError>
    requires ascii { IsTrue (list_all is_ascii beginning.now) }
    ensures { IfOk result (λ text. text ≡ made_name beginning.now letters number) }
{
    let mut text = Text::of(alloc, beginning)?;
    for _letter in 0..letters {
        text.push(b'_')?;
    }
    put_number(&mut text, number)?;
    Ok(text)
}

/// Adds the name of the iterator of a level.
pub fn put_iterator(
    alloc: Global,
    out: &mut List<Symbol>,
    letters: usize,
    level: u64,
) -> Result<(), AllocError>
    ensures { OnOk result (out.new ≡ out.old ++ Symbol.Name (iterator_name letters level) ∷ []) }
{
    let text = made_name(alloc, b"i", letters, level)?;
    out.push(Symbol::Name(text))
}

/// Adds the name that stands for a negative number of this magnitude.
pub fn put_minus_name(
    alloc: Global,
    out: &mut List<Symbol>,
    letters: usize,
    size: u64,
) -> Result<(), AllocError>
    ensures { OnOk result (out.new ≡ out.old ++ Symbol.Name (minus_name letters size) ∷ []) }
{
    let text = made_name(alloc, b"minus", letters, size)?;
    out.push(Symbol::Name(text))
}

/// Adds the name of array `k`; there is none in no array's place.
pub fn put_array_name(
    alloc: Global,
    out: &mut List<Symbol>,
    arrays: &[ArrayDecl],
    k: u32,
) -> Result<(), AllocError>
    ensures { OnOk result (out.new ≡ out.old ++ Symbol.Name (array_name arrays.now k) ∷ []) }
{
    match arrays.get(k as usize) {
        Some(array) => name(alloc, out, &array.name),
        None => out.push(Symbol::Name(Text::new(alloc))),
    }
}
