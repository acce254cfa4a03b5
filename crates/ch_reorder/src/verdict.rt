//! What a recipe says of the program of a deck.

ghost use Rattle.ch_order.specs.Legal.{AreAmong};

use crate::plain::is_moved;
use crate::recipe::{Command, applied, parsed};
use crate::trace::{Parts, parts_of, walk_over};
use crate::walk::{agrees, elements};
use ch_affine::Text;
use ch_code::guards;
use ch_codegen::generate;
use ch_deck::{DeckError, Program, read_deck};
use ch_depends::{Pair, pairs, reversed};
use ch_nest::{ArrayDecl, Nest, Shape};
use ch_order::same_meaning;
use ch_print::{put_buffer, put_cell, put_identity, put_number, put_wide};
use ch_reduce::{reversed_sum, same_sum};
use ch_space::{ShapeError, Space, SpaceError, count, of_nest, piece_count, pieces};
use ch_timed::{Cell, Element};
use std::alloc::{AllocError, Global};

fn put_place(out: &mut Text, arrays: &[ArrayDecl], cell: &Cell) -> Result<(), AllocError> {
    let subscripts = cell.subs.as_slice();
    match arrays.get(cell.array as usize) {
        Some(array) => put_cell(out, &array.name, subscripts),
        None => put_buffer(out, u64::from(cell.array)),
    }
}

/// The refusal of a command by its shape. C3 and C10 have no number.
fn shape_text(alloc: Global, step: u64, cause: Shape) -> Result<Text, AllocError> {
    let mut out = Text::new(alloc);
    out.append(b"shape at ")?;
    put_number(&mut out, step)?;
    out.append(b": C")?;
    put_number(&mut out, u64::from(cause.code))?;
    if cause.code != 3 && cause.code != 10 {
        out.append(b" ")?;
        put_wide(&mut out, cause.number)?;
    }
    Ok(out)
}

/// The refusal of a command by the pair that it reverses.
fn pair_text(
    alloc: Global,
    step: u64,
    arrays: &[ArrayDecl],
    pair: &Pair,
) -> Result<Text, AllocError> {
    let mut out = Text::new(alloc);
    out.append(b"illegal at ")?;
    put_number(&mut out, step)?;
    out.append(b": ")?;
    put_identity(&mut out, &pair.first)?;
    out.append(b" before ")?;
    put_identity(&mut out, &pair.second)?;
    out.append(b" on ")?;
    put_place(&mut out, arrays, &pair.cell)?;
    Ok(out)
}

fn legal_text(alloc: Global, space: &Space) -> Result<Text, AllocError> {
    let mut out = Text::new(alloc);
    out.append(b"legal pieces ")?;
    put_number(&mut out, u64::from(pieces(space)))?;
    out.append(b" instances ")?;
    put_number(&mut out, count(space))?;
    Ok(out)
}

/// How many instances each piece has, in the order of their numbers.
fn counts_text(alloc: Global, space: &Space) -> Result<Text, AllocError> {
    let mut out = Text::new(alloc);
    out.append(b"counts")?;
    for number in 0..pieces(space) {
        out.append(b" ")?;
        put_number(&mut out, piece_count(space, number))?;
    }
    Ok(out)
}

/// The dependences of the program itself: the numbers of both pieces, and the level.
fn pairs_text(alloc: Global, space: &Space) -> Result<Text, AllocError> {
    let mut out = Text::new(alloc);
    out.append(b"depends")?;
    for level in pairs(alloc, space)?.as_slice() {
        out.append(b" (")?;
        put_number(&mut out, u64::from(level.from))?;
        out.append(b",")?;
        put_number(&mut out, u64::from(level.to))?;
        out.append(b",")?;
        put_number(&mut out, u64::from(level.level))?;
        out.append(b")")?;
    }
    Ok(out)
}

/// How the legality of a command is asked for.
#[derive(Clone, Copy)]
struct Asking {
    /// How many times.
    repeats: u32,
    /// Whether sums may be made in any order.
    sums_are_free: bool,
}

/// The least reversed pair.
fn asked_once(
    alloc: Global,
    old: &Space,
    new: &Space,
    sums_are_free: bool,
) -> Result<Option<Pair>, AllocError>
    requires { AreAmong old.now.list new.now.list }
{
    if sums_are_free {
        return reversed_sum(alloc, old, new);
    }
    reversed(alloc, old, new)
}

/// The least reversed pair, asked for so many times.
fn asked(
    alloc: Global,
    old: &Space,
    new: &Space,
    asking: Asking,
) -> Result<Option<Pair>, AllocError>
    requires { AreAmong old.now.list new.now.list }
{
    for _ in 1..asking.repeats {
        let _pair = asked_once(alloc, old, new, asking.sums_are_free)?;
    }
    asked_once(alloc, old, new, asking.sums_are_free)
}

/// Whether both lists have the same meaning, told without the solver.
fn have_one_meaning(
    alloc: Global,
    old: &Space,
    new: &Space,
    sums_are_free: bool,
) -> Result<bool, AllocError> {
    if sums_are_free {
        return same_sum(alloc, old, new);
    }
    same_meaning(alloc, old, new)
}

/// The most elements of a list that is compared by `same_meaning` or `same_sum` too, whose time
/// grows with the third power of that number.
const MOST_COMPARED: u64 = 64;

/// What one command leaves: a space to go on with, or a refusal.
enum Outcome {
    Next(Space),
    Refused(Text),
}

/// A space that may stand for the one before it, or the pair that is reversed. Two other ways lead
/// to the same answer.
fn compared(
    alloc: Global,
    number: u64,
    arrays: &[ArrayDecl],
    old: &Space,
    new: Space,
    asking: Asking,
) -> Result<Outcome, AllocError>
    requires { AreAmong old.now.list new.list }
{
    let free = asking.sums_are_free;
    let pair = asked(alloc, old, &new, asking)?;
    if count(old) <= MOST_COMPARED && have_one_meaning(alloc, old, &new, free)? != pair.is_none() {
        return Ok(Outcome::Refused(disagreement(alloc)?));
    }
    if !agrees(alloc, old, &new, free, pair.as_ref())? {
        return Ok(Outcome::Refused(disagreement(alloc)?));
    }
    match pair {
        None => Ok(Outcome::Next(new)),
        Some(pair) => Ok(Outcome::Refused(pair_text(alloc, number, arrays, &pair)?)),
    }
}

/// Whether the code of the space executes its elements.
fn is_executed(
    alloc: Global,
    nest: &Nest,
    space: &Space,
    elements: &[Element],
) -> Result<bool, AllocError> {
    if space.arrays as usize != nest.arrays.len() {
        return Ok(false);
    }
    let unit = generate(alloc, nest, space)?;
    Ok(walk_over(alloc, &unit, elements)?.fits)
}

/// Whether the new list is what the command's definition makes of the old one, its pieces have the
/// counts that are kept, and its code executes it.
fn is_defined(
    alloc: Global,
    nest: &Nest,
    old: &Space,
    new: &Space,
    command: &Command,
) -> Result<bool, AllocError> {
    let olds = elements(alloc, old)?;
    let news = elements(alloc, new)?;
    if count(new) != news.len() as u64 {
        return Ok(false);
    }
    if !is_moved(alloc, &olds, &news, command)? {
        return Ok(false);
    }
    is_executed(alloc, nest, new, &news)
}

/// What stands in the code of the space, and how many turns its loops take.
fn code_text(alloc: Global, nest: &Nest, space: &Space) -> Result<Text, AllocError> {
    if space.arrays as usize != nest.arrays.len() {
        return disagreement(alloc);
    }
    let unit = generate(alloc, nest, space)?;
    let list = elements(alloc, space)?;
    let found = walk_over(alloc, &unit, &list)?;
    if !found.fits {
        return disagreement(alloc);
    }
    let parts = parts_of(alloc, &unit.root)?;
    counted_text(alloc, guards(&unit), parts, found.turns)
}

/// How many guards, loops and statements stand in code, and how many turns its loops take.
fn counted_text(alloc: Global, guards: u32, parts: Parts, turns: u32) -> Result<Text, AllocError> {
    let mut out = Text::new(alloc);
    out.append(b"code guards ")?;
    put_number(&mut out, u64::from(guards))?;
    out.append(b" loops ")?;
    put_number(&mut out, u64::from(parts.loops))?;
    out.append(b" statements ")?;
    put_number(&mut out, u64::from(parts.statements))?;
    out.append(b" turns ")?;
    put_number(&mut out, u64::from(turns))?;
    Ok(out)
}

fn disagreement(alloc: Global) -> Result<Text, AllocError> {
    let mut out = Text::new(alloc);
    out.append(b"a walk over all elements disagrees")?;
    Ok(out)
}

/// What the command of this number leaves.
fn step(
    alloc: Global,
    number: u64,
    nest: &Nest,
    space: &Space,
    text: &str,
    asking: Asking,
) -> Result<Outcome, AllocError> {
    let command = parsed(alloc, text)?;
    match applied(alloc, space, &command) {
        Ok(new) => {
            if !is_defined(alloc, nest, space, &new, &command)? {
                return Ok(Outcome::Refused(disagreement(alloc)?));
            }
            compared(alloc, number, nest.arrays.as_slice(), space, new, asking)
        }
        Err(ShapeError::Memory) => Err(AllocError),
        Err(ShapeError::Shape(cause)) => Ok(Outcome::Refused(shape_text(alloc, number, cause)?)),
    }
}

/// What the recipe says of a space, command by command.
fn judged(
    alloc: Global,
    nest: &Nest,
    space: Space,
    recipe: &str,
    repeats: u32,
) -> Result<Text, AllocError> {
    let mut space = space;
    let mut asking = Asking {
        repeats,
        sums_are_free: false,
    };
    for (k, command) in recipe.split(';').enumerate() {
        if command == "counts" {
            return counts_text(alloc, &space);
        }
        if command == "code" {
            return code_text(alloc, nest, &space);
        }
        if command == "accumulate" {
            asking.sums_are_free = true;
            continue;
        }
        match step(alloc, k as u64 + 1, nest, &space, command, asking)? {
            Outcome::Refused(answer) => return Ok(answer),
            Outcome::Next(new) => space = new,
        }
    }
    legal_text(alloc, &space)
}

fn refused(alloc: Global) -> Result<Text, AllocError> {
    let mut out = Text::new(alloc);
    out.append(b"the deck is refused")?;
    Ok(out)
}

fn of_program(
    alloc: Global,
    program: &Program,
    recipe: &str,
    repeats: u32,
) -> Result<Text, AllocError> {
    let space = match of_nest(alloc, &program.nest) {
        Ok(space) => space,
        Err(SpaceError::Memory) => return Err(AllocError),
        Err(_) => return refused(alloc),
    };
    if recipe == "pairs" {
        return pairs_text(alloc, &space);
    }
    judged(alloc, &program.nest, space, recipe, repeats)
}

/// What the recipe says of the first program of a deck.
pub(crate) fn verdict(
    alloc: Global,
    deck: &str,
    recipe: &str,
    repeats: u32,
) -> Result<Text, AllocError> {
    let deck = match read_deck(alloc, deck.as_bytes()) {
        Ok(deck) => deck,
        Err(DeckError::Memory) => return Err(AllocError),
        Err(DeckError::Refused(_)) => return refused(alloc),
    };
    match deck.programs().first() {
        None => refused(alloc),
        Some(program) => of_program(alloc, program, recipe, repeats),
    }
}
