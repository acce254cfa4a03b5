ghost use Rattle.std.specs.Prelude.{◌≡◌, ◌<◌, ◌^◌, ℕ, [], Some, None, length, map, IfOk};
ghost use Rattle.std.specs.List.{All};
ghost use Rattle.ch_deck.specs.Judged.{IsSound, first_unfit, instance_text};
ghost use Rattle.ch_deck.specs.Judged.{program_of, told, unfit};
ghost use Rattle.ch_deck.specs.Refusals.{refused_at, value_text};
ghost use Rattle.ch_deck.specs.Kept.{IsRead};
ghost use Rattle.ch_lex.specs.Spots.{spot_of};
ghost use Rattle.ch_lex.specs.declared.error.Code2.TheVariants.{S1};
ghost use Rattle.ch_space.specs.declared.error.SpaceError.TheVariants.{OutOfRange};
ghost use Rattle.ch_workload.specs.declared.error.DeckCode.TheVariants.{Plain};

use crate::program::Program;
use crate::refusal::Refused;
use ch_affine::{List, Text};
use ch_lex::{Code2, Spot, spot};
use ch_nest::ArrayDecl;
use ch_nestparse::ParsedProgram;
use ch_print::{put_cell, put_identity, put_wide};
use ch_space::{SpaceError, judged};
use ch_timed::{Cell, Identity};
use ch_workload::DeckCode;
use std::alloc::{AllocError, Global};

/// The line and the column of a byte, the end of the text for a byte behind it.
#[tactic(auto, using(crate::proofs::Spots::spot_least))]
fn spot_of(bytes: &[u8], at: u32) -> Spot
    requires { length bytes.now < 2 ^ 31 }
    ensures { result ≡ spot_of bytes.now at }
{
    spot(bytes, at.min(bytes.len() as u32))
}

/// A refusal at a byte of the text.
fn refused_at(bytes: &[u8], code: DeckCode, at: u32, detail: Text) -> Refused
    requires { length bytes.now < 2 ^ 31 }
    ensures { result ≡ refused_at bytes.now code at detail }
{
    Refused {
        code,
        spot: Some(spot_of(bytes, at)),
        detail,
    }
}

fn value_text(alloc: Global, code: DeckCode, value: i128) -> Result<Text, AllocError>
    ensures { IfOk result (λ text. text ≡ value_text code value) }
{
    let mut text = Text::new(alloc);
    if let DeckCode::Plain(Code2::A1) = code {
        put_wide(&mut text, value)?;
    }
    Ok(text)
}

/// A reader's refusal with its line and column.
pub(crate) fn placed(
    alloc: Global,
    bytes: &[u8],
    code: DeckCode,
    at: u32,
    value: i128,
) -> Result<Refused, AllocError>
    requires { length bytes.now < 2 ^ 31 }
    ensures { IfOk result (λ r. r ≡ refused_at bytes.now code at (value_text code value)) }
{
    let detail = value_text(alloc, code, value)?;
    Ok(refused_at(bytes, code, at, detail))
}

/// Adds the instance and the cell that it names.
fn instance_text(
    alloc: Global,
    arrays: &[ArrayDecl],
    first: &Identity,
    cell: &Cell,
) -> Result<Text, AllocError>
    ensures { IfOk result (λ text. text ≡ instance_text arrays.now first.now cell.now) }
{
    let mut text = Text::new(alloc);
    put_identity(&mut text, first)?;
    text.append(b" ")?;
    match arrays.get(cell.array as usize) {
        Some(array) => put_cell(&mut text, &array.name, cell.subs.as_slice())?,
        None => put_cell(&mut text, &Text::new(alloc), cell.subs.as_slice())?,
    }
    Ok(text)
}

/// The refusal of a program that takes too many turns, whose name stands at byte `name_at`.
fn too_many(alloc: Global, bytes: &[u8], name_at: u32) -> Refused
    requires { length bytes.now < 2 ^ 31 }
    ensures { result ≡ refused_at bytes.now (Plain S1) name_at [] }
{
    refused_at(bytes, DeckCode::Plain(Code2::S1), name_at, Text::new(alloc))
}

/// The refusal of a program whose access of this number leaves its array.
fn out_of_range(
    alloc: Global,
    bytes: &[u8],
    program: &ParsedProgram,
    first: &Identity,
    access: u32,
    cell: &Cell,
) -> Result<Refused, AllocError>
    requires short { length bytes.now < 2 ^ 31 }
    requires there { access < length program.now.accesses }
    ensures { IfOk result (λ r. (name_at : ℕ) → Some r
        ≡ told bytes.now program.now name_at (OutOfRange first.now access cell.now)) }
{
    let text = instance_text(alloc, program.nest.arrays.as_slice(), first, cell)?;
    let accesses = program.accesses.as_slice();
    let at = accesses[access as usize];
    Ok(refused_at(bytes, DeckCode::Plain(Code2::S2), at, text))
}

/// Why a program, whose name stands at byte `name_at`, can't be run, if it can't.
#[tactic(auto, unfolding(crate::specs::Judged::unfit), using(crate::proofs::Accesses::access_there))]
fn unfit(
    alloc: Global,
    bytes: &[u8],
    program: &ParsedProgram,
    name_at: u32,
) -> Result<Option<Refused>, AllocError>
    requires short { length bytes.now < 2 ^ 31 }
    requires read { IsRead program.now }
    ensures exact { IfOk result (λ r. r ≡ unfit bytes.now program.now name_at) }
    ensures sound { IfOk result (λ r. r ≡ None → IsSound program.now) }
{
    match judged(alloc, &program.nest) {
        Ok(()) => Ok(None),
        Err(SpaceError::Memory) => Err(AllocError),
        Err(SpaceError::TooMany) => Ok(Some(too_many(alloc, bytes, name_at))),
        Err(
            SpaceError::OutOfRange {
                first,
                access,
                cell,
            },
        ) => {
            program.nest.known();
            let refusal = out_of_range(alloc, bytes, program, &first, access, &cell)?;
            Ok(Some(refusal))
        }
    }
}

/// The refusal of the first program that can't be run, if there is one, where the programs' names
/// stand at these bytes.
pub(crate) fn first_unfit(
    alloc: Global,
    bytes: &[u8],
    programs: &[ParsedProgram],
    places: &[u32],
) -> Result<Option<Refused>, AllocError>
    requires short { length bytes.now < 2 ^ 31 }
    requires read { All IsRead programs.now }
    requires placed { length places.now ≡ length programs.now }
    ensures exact { IfOk result (λ r. r ≡ first_unfit bytes.now programs.now places.now) }
    ensures sound { IfOk result (λ r. r ≡ None → All IsSound programs.now) }
{
    match programs {
        [] => Ok(None),
        [first, others @ ..] => match places {
            [] => Ok(None),
            [at, more @ ..] => match unfit(alloc, bytes, first, *at)? {
                Some(refusal) => Ok(Some(refusal)),
                None => first_unfit(alloc, bytes, others, more),
            },
        },
    }
}

/// The programs as a deck keeps them.
pub(crate) fn programs_of(
    alloc: Global,
    found: List<ParsedProgram>,
) -> Result<List<Program>, AllocError>
    ensures { IfOk result (λ programs. programs ≡ map program_of found) }
{
    let mut programs = List::new(alloc);
    for parsed in found.into_vec() {
        let ParsedProgram {
            name,
            nest,
            fills,
            ..
        } = parsed;
        programs.push(Program { name, nest, fills })?;
    }
    Ok(programs)
}
