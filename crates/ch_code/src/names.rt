//! The names of a unit's arrays, and which of them are an array's own.

ghost use Rattle.std.specs.Prelude.{◌≡◌, ◌++◌, ◌&&◌, length, OnOk, IfOk};
ghost use Rattle.std.specs.List.{list_all};
ghost use Rattle.ch_code.specs.BodyText.{array_text, is_own, is_plain, is_word, other_text, own_flags};

use ch_affine::{List, Text};
use ch_nest::ArrayDecl;
use ch_print::{put_buffer, put_number};
use indexmap::IndexSet;
use std::alloc::{AllocError, Global};
use std::marker::Model;

/// A unit's arrays, with whether each one's name is its own, which is found once. Contracts see the
/// arrays.
#[derive(Drop)]
pub(crate) struct Names<'a> {
    arrays: &'a [ArrayDecl],
    own: List<bool>,
}

impl<'a> Model for Names<'a> {
    ghost use Rattle.std.specs.Prelude.{◌≡◌, List, length};
    ghost use Rattle.std.specs.Coded.{codes};
    ghost use Rattle.ch_nest.specs.declared.nest.ArrayDecl.{ArrayDecl};
    ghost use Rattle.ch_nest.specs.contracts.nest.ArrayDecl as array;
    ghost use Rattle.ch_code.specs.BodyText.{own_flags};

    ghost Value = { List ArrayDecl };

    ghost coded = { Prim.hlevel (codes, array.the_row.coded) };

    ghost view = { λ n. n.arrays.now };

    ghost invariant = { λ n. n.own ≡ own_flags n.arrays.now (length n.arrays.now) };
}

fn is_word(byte: u8) -> bool
    ensures { result ≡ is_word byte }
{
    byte.is_ascii_alphanumeric() || byte == b'_'
}

fn all_words(name: &[u8]) -> bool
    ensures { result ≡ list_all is_word name.now }
{
    name.iter().all(|byte| is_word(*byte))
}

/// Whether a name is made of letters, digits and underscores, and begins with no digit.
#[tactic(auto, using(crate::proofs::Steps::plain_is))]
pub(crate) fn is_plain(name: &[u8]) -> bool
    ensures { result ≡ is_plain name.now }
{
    match name {
        [] => false,
        [first, ..] => !first.is_ascii_digit() && all_words(name),
    }
}

/// Whether a name is plain, where `is_new` says that it names no array before.
fn is_own_name(name: &[u8], is_new: bool) -> bool
    ensures { result ≡ (is_plain name.now && is_new) }
{
    is_plain(name) && is_new
}

/// Whether each array's name is plain and names no array before it. Each name is looked up once.
fn own_flags(alloc: Global, arrays: &[ArrayDecl]) -> Result<List<bool>, AllocError>
    ensures { IfOk result (λ own. own ≡ own_flags arrays.now (length arrays.now)) }
{
    let mut own = List::with_capacity(alloc, arrays.len())?;
    let mut seen: IndexSet<Vec<u8>> = IndexSet::new(alloc);
    for number in 0..arrays.len() {
        let name = arrays[number].name.as_bytes();
        let (_, is_new) = seen.insert_full(Vec::from_slice(alloc, name)?)?;
        own.push(is_own_name(name, is_new))?;
    }
    Ok(own)
}

impl<'a> Names<'a> {
    pub(crate) fn of(alloc: Global, arrays: &'a [ArrayDecl]) -> Result<Names<'a>, AllocError>
        ensures { IfOk result (λ names. names ≡ arrays.now) }
    {
        let own = own_flags(alloc, arrays)?;
        Ok(Names { arrays, own })
    }

    /// Whether the array of this number, if there is one, is written by its name.
    #[tactic(auto, using(crate::proofs::Steps::flags_say, crate::proofs::Steps::flags_end))]
    fn is_own(&self, number: usize) -> bool
        ensures { result ≡ is_own self.now number }
    {
        let own = self.own.as_slice();
        number < own.len() && own[number]
    }
}

fn put_other(out: &mut Text, count: usize, number: usize) -> Result<(), AllocError>
    ensures { OnOk result (out.new ≡ out.old ++ other_text count number) }
{
    if number >= count {
        return put_buffer(out, (number - count) as u64);
    }
    out.append(b"#")?;
    put_number(out, number as u64)
}

/// Adds an array by its name where it is its own, and else by its number.
#[tactic(auto, unfolding(crate::specs::BodyText::array_text), using(crate::proofs::Steps::nth_name_is, crate::proofs::Steps::own_inside))]
pub(crate) fn put_array(out: &mut Text, names: &Names, number: usize) -> Result<(), AllocError>
    ensures { OnOk result (out.new ≡ out.old ++ array_text names.now number) }
{
    if names.is_own(number) {
        return out.append(names.arrays[number].name.as_bytes());
    }
    put_other(out, names.arrays.len(), number)
}
