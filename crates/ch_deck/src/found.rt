//! What was found of a deck so far.
use ch_affine::List;
use ch_nestparse::ParsedProgram;
use ch_script::Recipe;
use ch_workload::{Script, SessionDecl};
use std::alloc::Global;

/// The sections that were found, by their sorts, and the number of the first token behind them.
#[derive(Drop)]
pub(crate) struct Found {
    pub programs: List<ParsedProgram>,
    /// The byte at which each program's name begins.
    pub places: List<u32>,
    pub recipes: List<Recipe>,
    pub sessions: List<SessionDecl>,
    pub clients: List<Script>,
    pub next: u32,
}

impl Found {
    ghost use Rattle.std.specs.Prelude.{◌≡◌};
    ghost use Rattle.ch_deck.specs.Sections.{nothing_found};

    pub fn nothing(alloc: Global) -> Found
        ensures { result ≡ nothing_found }
    {
        Found {
            programs: List::new(alloc),
            places: List::new(alloc),
            recipes: List::new(alloc),
            sessions: List::new(alloc),
            clients: List::new(alloc),
            next: 0,
        }
    }
}
