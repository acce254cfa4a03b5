//! Whether given values fit a deck, and what a deck is answered.
ghost use Rattle.std.specs.Prelude.{◌≡◌};
ghost use Rattle.ch_check.specs.Sessions.{fits, fits_all};

use ch_affine::{List, Text};
use ch_deck::Deck;
use ch_workload::SessionDecl;

/// A status, and the text to write.
#[derive(Debug, Drop)]
pub struct Answer {
    /// 6 where the recipe of a session is refused, else 0.
    pub status: u8,
    pub text: Text,
}

fn fits(at: &Option<List<i64>>, session: &SessionDecl) -> bool
    ensures { result ≡ fits at.now session.now }
{
    match at {
        None => true,
        Some(values) => values.len() == session.grid.params.len(),
    }
}

/// Whether there are as many given values as each session of the deck has parameters, which is so
/// where none are given.
pub fn fits_all(at: &Option<List<i64>>, deck: &Deck) -> bool
    ensures { result ≡ fits_all at.now deck.now }
{
    deck.sessions().iter().all(|session| fits(at, session))
}
