ghost use Rattle.std.specs.Prelude.{◌≡◌};
ghost use Rattle.std.specs.List.{All};
ghost use Rattle.ch_deck.specs.Parts.{IsDeck, deck_parts};
ghost use Rattle.ch_deck.specs.Programs.{IsProgram};

use ch_affine::{List, Text};
use ch_nest::{Fill, Nest};
use ch_script::Recipe;
use ch_workload::{Script, SessionDecl};
use std::marker::Model;

/// A program: its name, its nest, and how each of its arrays starts.
#[derive(Debug, Drop)]
pub struct Program {
    pub name: Text,
    pub nest: Nest,
    pub fills: List<Fill>,
}

/// An accepted deck: its programs, recipes, sessions and clients. Contracts see the record of these
/// lists.
///
/// By its type there are at most 16 programs, 16 recipes, 8 sessions and 16 clients, and no two of
/// one sort have one name. Each program has one fill for each of its arrays, takes at most
/// 1,048,576 turns and instances together, and no subscript of it leaves its array. The numbers in
/// sessions and clients are those of things that exist. A session's grid has the parameters of its
/// recipe, and a point that meets the conditions between them. A client fills no array twice, and
/// makes 1 to 10,000 calls.
#[derive(Debug, Drop)]
pub struct Deck {
    programs: List<Program>,
    recipes: List<Recipe>,
    sessions: List<SessionDecl>,
    clients: List<Script>,
}

impl Model for Deck {
    ghost use Rattle.std.specs.Coded.{codes};
    ghost use Rattle.ch_deck.specs.declared.program.Program.{Program};
    ghost use Rattle.ch_nest.specs.contracts.nest.Item as item;
    ghost use Rattle.ch_script.specs.contracts.recipe.Cond as cond;
    ghost use Rattle.ch_script.specs.contracts.recipe.Command as command;
    ghost use Rattle.ch_deck.specs.Parts.{DeckParts, IsDeck, deck_parts};

    ghost Value = { DeckParts };

    ghost coded = { Prim.hlevel (codes, item.the_row.coded, cond.the_row.coded, command.the_row.coded) };

    ghost view = { λ d. deck_parts d.programs d.recipes d.sessions d.clients };

    ghost invariant = { λ d. IsDeck (deck_parts d.programs d.recipes d.sessions d.clients) };
}

impl Deck {
    /// The deck of these parts.
    pub(crate) fn of(
        programs: List<Program>,
        recipes: List<Recipe>,
        sessions: List<SessionDecl>,
        clients: List<Script>,
    ) -> Deck
        requires { IsDeck (deck_parts programs recipes sessions clients) }
        ensures { result ≡ deck_parts programs recipes sessions clients }
    {
        Deck {
            programs,
            recipes,
            sessions,
            clients,
        }
    }

    /// The programs, in the order of the text.
    pub fn programs(&self) -> &[Program]
        ensures value { result.now ≡ self.now.programs }
        ensures fine { All IsProgram result.now }
    {
        self.programs.as_slice()
    }

    /// The recipes, in the order of the text.
    pub fn recipes(&self) -> &[Recipe]
        ensures { result.now ≡ self.now.recipes }
    {
        self.recipes.as_slice()
    }

    /// The sessions, in the order of the text.
    pub fn sessions(&self) -> &[SessionDecl]
        ensures { result.now ≡ self.now.sessions }
    {
        self.sessions.as_slice()
    }

    /// The clients, in the order of the text.
    pub fn clients(&self) -> &[Script]
        ensures { result.now ≡ self.now.clients }
    {
        self.clients.as_slice()
    }

    /// Tells a caller what each deck keeps by its type. It does nothing.
    pub fn known(&self)
        ensures { IsDeck self.now }
    {
        let _ = self.programs.len();
    }
}
