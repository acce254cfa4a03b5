ghost use Rattle.std.specs.Prelude.{◌≡◌, ◌++◌, IfOk, OnOk};
ghost use Rattle.std.specs.List.{All, flat_map};
ghost use Rattle.ch_deck.specs.Programs.{IsProgram};
ghost use Rattle.ch_run.specs.EvalText.{cells_after, eval_text, program_text};

use crate::text::put_arrays;
use ch_affine::{List, Text};
use ch_deck::Program;
use ch_nest::{filled, perform};
use std::alloc::{AllocError, Global};

/// The cells of a program after its nest has run once.
fn cells_after(alloc: Global, program: &Program) -> Result<List<i64>, AllocError>
    requires { IsProgram program.now }
    ensures { IfOk result (λ cells. cells ≡ cells_after program.now) }
{
    let mut cells = filled(
        alloc,
        program.nest.arrays.as_slice(),
        program.fills.as_slice(),
    )?;
    perform(alloc, &program.nest, &mut cells)?;
    Ok(cells)
}

/// Adds a program's name and its arrays.
#[tactic(auto, unfolding(crate::specs::EvalText::program_text))]
fn put_program(
    alloc: Global,
    out: &mut Text,
    sums: bool,
    program: &Program,
) -> Result<(), AllocError>
    requires { IsProgram program.now }
    ensures { OnOk result (out.new ≡ out.old ++ program_text sums program.now) }
{
    let cells = cells_after(alloc, program)?;
    out.append(b"program ")?;
    out.append(program.name.as_bytes())?;
    out.append(b"\n")?;
    program.nest.known();
    put_arrays(out, sums, program.nest.arrays.as_slice(), cells.as_slice())
}

fn put_programs(
    alloc: Global,
    out: &mut Text,
    sums: bool,
    programs: &[Program],
) -> Result<(), AllocError>
    requires { All IsProgram programs.now }
    ensures { OnOk result (out.new ≡ out.old ++ flat_map (program_text sums) programs.now) }
{
    for program in programs {
        put_program(alloc, out, sums, program)?;
    }
    Ok(())
}

/// The text of `eval`: all elements of arrays, or their sums alone.
#[tactic(auto, unfolding(crate::specs::EvalText::eval_text))]
pub(crate) fn eval_text(alloc: Global, sums: bool, programs: &[Program]) -> Result<Text, AllocError>
    requires { All IsProgram programs.now }
    ensures { IfOk result (λ text. text ≡ eval_text sums programs.now) }
{
    let mut out = Text::new(alloc);
    put_programs(alloc, &mut out, sums, programs)?;
    out.append(b"end\n")?;
    Ok(out)
}
