ghost use Rattle.std.specs.Prelude.{◌≡◌, ◌<◌, suc, [], ◌∷◌, ◌++◌, IfOk, OnOk};
ghost use Rattle.ch_nestprint.specs.Minus.{minus_in_items};
ghost use Rattle.ch_nestprint.specs.Back.{IsReadAs};
ghost use Rattle.ch_nestprint.specs.Cuts.{Shows};
ghost use Rattle.ch_nestprint.specs.Printable.{IsPrintable};
ghost use Rattle.ch_nestprint.specs.Printed.{assign_symbols, body_symbols, item_symbols};
ghost use Rattle.ch_nestprint.specs.Printed.{items_symbols, lets_symbols, parts_symbols};
ghost use Rattle.ch_nestprint.specs.Printed.{program_symbols, program_text};

use crate::access::put_access;
use crate::bounds::{Head, put_head};
use crate::conditions::{put_condition, put_if};
use crate::declared::{put_arrays, put_lets};
use crate::layout::spell;
use crate::minus::items_sizes;
use crate::named::letters_for;
use crate::right::put_right;
use crate::symbol::{Symbol, key, mark, name};
use ch_affine::{List, Text};
use ch_lex::{Keyword, Sign};
use ch_nest::{ArrayDecl, Body, Fill, Item, Nest, Standing};
use std::alloc::{AllocError, Global};

fn put_assign(
    alloc: Global,
    out: &mut List<Symbol>,
    arrays: &[ArrayDecl],
    letters: usize,
    body: &Body,
) -> Result<(), AllocError>
    ensures { OnOk result (out.new ≡ out.old ++ assign_symbols arrays.now letters body.now) }
{
    put_access(alloc, out, arrays, letters, &body.write)?;
    mark(out, Sign::Equals)?;
    put_right(alloc, out, arrays, letters, &body.right, Standing::Term)?;
    mark(out, Sign::Semicolon)
}

/// One loop more. No memory holds so many that their number passes 64 bits.
fn deeper(depth: u64) -> Result<u64, AllocError>
    ensures { IfOk result (λ inside. inside ≡ suc depth) }
{
    depth.checked_add(1).ok_or(AllocError)
}

/// Adds an item below `depth` loops.
#[cycle(printed)]
fn put_item(
    alloc: Global,
    out: &mut List<Symbol>,
    arrays: &[ArrayDecl],
    letters: usize,
    item: &Item,
    depth: u64,
) -> Result<(), AllocError>
    ensures { OnOk result (out.new ≡ out.old ++ item_symbols arrays.now letters item.now depth) }
{
    match item {
        Item::Loop {
            lows,
            highs,
            step,
            items,
        } => {
            key(out, Keyword::For)?;
            let head = Head {
                level: depth,
                lows: lows.as_slice(),
                highs: highs.as_slice(),
                step: *step,
            };
            put_head(alloc, out, letters, &head)?;
            mark(out, Sign::LeftBrace)?;
            let inside = deeper(depth)?;
            put_items(alloc, out, arrays, letters, items.as_slice(), inside)?;
            mark(out, Sign::RightBrace)
        }
        Item::Assign { body, .. } => put_assign(alloc, out, arrays, letters, body),
        Item::If { row, items } => {
            put_if(alloc, out)?;
            put_condition(alloc, out, letters, row)?;
            mark(out, Sign::LeftBrace)?;
            put_items(alloc, out, arrays, letters, items.as_slice(), depth)?;
            mark(out, Sign::RightBrace)
        }
    }
}

/// Adds items below `depth` loops.
#[cycle(printed)]
fn put_items(
    alloc: Global,
    out: &mut List<Symbol>,
    arrays: &[ArrayDecl],
    letters: usize,
    items: &[Item],
    depth: u64,
) -> Result<(), AllocError>
    ensures { OnOk result (out.new ≡ out.old ++ items_symbols arrays.now letters items.now depth) }
{
    for item in items {
        put_item(alloc, out, arrays, letters, item, depth)?;
    }
    Ok(())
}

/// Adds the lets that the items need.
fn put_needed_lets(
    alloc: Global,
    out: &mut List<Symbol>,
    letters: usize,
    items: &[Item],
) -> Result<(), AllocError>
    ensures { OnOk result (out.new
        ≡ out.old ++ lets_symbols letters [] (minus_in_items items.now)) }
{
    let mut sizes = List::new(alloc);
    items_sizes(&mut sizes, items)?;
    put_lets(alloc, out, letters, sizes.as_slice())
}

/// Adds the lets, the arrays and the items.
fn put_parts(
    alloc: Global,
    out: &mut List<Symbol>,
    letters: usize,
    arrays: &[ArrayDecl],
    items: &[Item],
    fills: &[Fill],
) -> Result<(), AllocError>
    ensures { OnOk result (out.new
        ≡ out.old ++ parts_symbols letters arrays.now items.now fills.now) }
{
    put_needed_lets(alloc, out, letters, items)?;
    put_arrays(alloc, out, arrays, fills)?;
    put_items(alloc, out, arrays, letters, items, 0)
}

/// Adds what stands between the braces of a program.
fn put_body(
    alloc: Global,
    out: &mut List<Symbol>,
    nest: &Nest,
    fills: &[Fill],
) -> Result<(), AllocError>
    ensures { OnOk result (out.new ≡ out.old ++ body_symbols nest.now fills.now) }
{
    let arrays = nest.arrays.as_slice();
    let letters = letters_for(arrays);
    put_parts(alloc, out, letters, arrays, nest.items.as_slice(), fills)
}

fn symbols(
    alloc: Global,
    program: &Text,
    nest: &Nest,
    fills: &[Fill],
) -> Result<List<Symbol>, AllocError>
    ensures { IfOk result (λ out. out ≡ program_symbols program.now nest.now fills.now) }
{
    let mut out = List::new(alloc);
    key(&mut out, Keyword::Program)?;
    name(alloc, &mut out, program)?;
    mark(&mut out, Sign::LeftBrace)?;
    put_body(alloc, &mut out, nest, fills)?;
    mark(&mut out, Sign::RightBrace)?;
    Ok(out)
}

fn printed(alloc: Global, name: &Text, nest: &Nest, fills: &[Fill]) -> Result<Text, AllocError>
    ensures { IfOk result (λ text. text ≡ program_text name.now nest.now fills.now) }
{
    let symbols = symbols(alloc, name, nest, fills)?;
    spell(alloc, symbols.as_slice())
}

/// The text of a program: `program`, this name, and in braces the arrays with their fills and the
/// items of the nest.
///
/// Iterators are named by their level, and a negative number of a right side by a let of its own.
/// There is one fill for each array.
#[tactic(auto, using(crate::proofs::Printing::shows, crate::proofs::Printing::reads))]
pub fn print_program(
    alloc: Global,
    name: &Text,
    nest: &Nest,
    fills: &[Fill],
) -> Result<Text, AllocError>
    ensures text { IfOk result (λ text. text ≡ program_text name.now nest.now fills.now) }
    ensures tokens { IsPrintable name.now nest.now.arrays fills.now → IfOk result (λ text.
        Shows text (program_symbols name.now nest.now fills.now)) }
    ensures reads { IsPrintable name.now nest.now.arrays fills.now → IfOk result (λ text.
        IsReadAs text name.now nest.now fills.now) }
{
    nest.known();
    printed(alloc, name, nest, fills)
}
