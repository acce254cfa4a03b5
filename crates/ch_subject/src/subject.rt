//! The program and the recipe that a session names.
ghost use Rattle.std.specs.Prelude.{◌≡◌, IsTrue, length};
ghost use Rattle.ch_deck.specs.Programs.{IsProgram};
ghost use Rattle.ch_judge.specs.Judged.{IsSubject};
ghost use Rattle.ch_subject.specs.Subjects.{nest_of, program_in, recipe_in};
ghost use Rattle.ch_workload.specs.Sessions.{session_fits};

use ch_deck::{Deck, Program};
use ch_judge::Subject;
use ch_nest::Machine;
use ch_script::Recipe;
use ch_workload::SessionDecl;

/// The program that a session of the deck names.
#[tactic(auto, using(crate::proofs::Named::program_there))]
pub fn program_of<'a>(deck: &'a Deck, session: &SessionDecl) -> &'a Program
    requires { IsTrue (session_fits (length deck.now.programs) deck.now.recipes session.now) }
    ensures value { result.now ≡ program_in deck.now session.now }
    ensures fine { IsProgram result.now }
{
    let programs = deck.programs();
    &programs[session.program as usize]
}

/// The recipe that a session of the deck names. The session has a range for each of its
/// parameters.
#[tactic(auto, using(crate::proofs::Named::recipe_there, crate::proofs::Named::as_many))]
pub fn recipe_of<'a>(deck: &'a Deck, session: &SessionDecl) -> &'a Recipe
    requires { IsTrue (session_fits (length deck.now.programs) deck.now.recipes session.now) }
    ensures value { result.now ≡ recipe_in deck.now session.now }
    ensures params { length session.now.params ≡ length result.now.params }
{
    let recipes = deck.recipes();
    &recipes[session.recipe as usize]
}

/// What is judged of a session of the deck on a machine: its program, with the program's fills, and
/// its recipe.
pub fn subject_of<'a>(deck: &'a Deck, session: &SessionDecl, machine: &'a Machine) -> Subject<'a>
    requires there { IsTrue
        (session_fits (length deck.now.programs) deck.now.recipes session.now) }
    ensures subject { IsSubject result }
    ensures nest { result.nest.now ≡ nest_of deck.now session.now }
    ensures recipe { result.recipe.now ≡ recipe_in deck.now session.now }
    ensures machine { result.machine.now ≡ machine.now }
    ensures params { length session.now.params ≡ length result.recipe.now.params }
{
    let program = program_of(deck, session);
    Subject {
        nest: &program.nest,
        fills: program.fills.as_slice(),
        recipe: recipe_of(deck, session),
        machine,
    }
}
