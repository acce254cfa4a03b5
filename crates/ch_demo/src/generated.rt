//! The parts of the deck that is made from a number.
ghost use Rattle.std.specs.Prelude.{◌≡◌, ◌<◌, ◌≤◌, IfOk};
ghost use Rattle.ch_demo.specs.Generated.{count_of, fills_of, size_of, sizes_tried, tile, turns_alone, two_tiles};

use ch_affine::{List, Text};
use ch_grid::{Grid, Param};
use ch_nest::{Fill, Machine};
use ch_script::{Arg, Command, Recipe};
use std::alloc::{AllocError, Global};

/// How many programs, and sessions, the deck has.
pub(crate) fn count_of(number: u32) -> u32
    ensures value { result ≡ count_of number }
    ensures few { result ≤ 8 }
{
    1 + number % 8
}

/// How many rows and columns the matrices of program `k` have.
pub(crate) fn size_of(number: u32, k: u32) -> u32
    requires { k < 8 }
    ensures value { result ≡ size_of number k }
    ensures low { 8 ≤ result }
    ensures high { result ≤ 16 }
{
    8 + ((u64::from(number) + 3 * u64::from(k)) % 9) as u32
}

/// How the arrays of program `k` start.
pub(crate) fn fills_of(alloc: Global, number: u32, k: u32) -> Result<List<Fill>, AllocError>
    ensures { IfOk result (λ fills. fills ≡ fills_of number k) }
{
    let first = Fill {
        a: 1,
        b: i64::from(number % 97),
    };
    let second = Fill {
        a: 2,
        b: i64::from(k),
    };
    List::from_slice(alloc, &[first, second, Fill { a: 0, b: 0 }])
}

/// The loop of level 3 in tiles of the size that a parameter has, around the loop of another level.
fn tile(size: u32, outer: u32) -> Command
    ensures { result ≡ tile size outer }
{
    Command::Tile {
        statement: Arg::Number(0),
        level: Arg::Number(3),
        size: Arg::Param(size),
        outer: Arg::Number(i64::from(outer)),
    }
}

fn parameters(alloc: Global) -> Result<List<Text>, AllocError>
    ensures { IfOk result (λ params. params ≡ two_tiles.params) }
{
    let mut params = List::new(alloc);
    params.push(Text::of(alloc, b"T")?)?;
    params.push(Text::of(alloc, b"U")?)?;
    Ok(params)
}

fn commands(alloc: Global) -> Result<List<Command>, AllocError>
    ensures { IfOk result (λ commands. commands ≡ two_tiles.commands) }
{
    let mut commands = List::new(alloc);
    commands.push(tile(0, 1))?;
    commands.push(tile(1, 2))?;
    Ok(commands)
}

/// The recipe of all sessions: two tile sizes.
#[tactic(auto, using(crate::proofs::Tiles::tiles_fit))]
pub(crate) fn two_tiles(alloc: Global) -> Result<Recipe, AllocError>
    ensures { IfOk result (λ recipe. recipe ≡ two_tiles) }
{
    let name = Text::of(alloc, b"two")?;
    let params = parameters(alloc)?;
    let commands = commands(alloc)?;
    let Some(recipe) = Recipe::new(name, params, List::new(alloc), commands) else {
        unreachable!()
    };
    Ok(recipe)
}

/// The sizes that are tried.
#[tactic(auto, using(crate::proofs::Tiles::no_fault))]
pub(crate) fn sizes_tried(alloc: Global) -> Result<Grid, AllocError>
    ensures { IfOk result (λ grid. grid.params ≡ sizes_tried) }
{
    let size = Param {
        low: 1,
        high: 6,
        step: 1,
    };
    let params = List::from_slice(alloc, &[size, size])?;
    let Ok(grid) = Grid::of(params) else {
        unreachable!()
    };
    Ok(grid)
}

/// The machine of the client: each turn of a loop costs 1, and a miss nothing.
pub(crate) fn turns_alone() -> Machine
    ensures { result ≡ turns_alone }
{
    let Some(machine) = Machine::new(1, 0, 1, 1) else {
        unreachable!()
    };
    machine
}
