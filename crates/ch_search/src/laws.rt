//! Laws of the definitions, each carried by a function without arguments that does nothing.
ghost use Rattle.std.specs.Prelude.{◌≡◌, ℕ, List};
ghost use Rattle.ch_deck.specs.Parts.{DeckParts};
ghost use Rattle.ch_search.specs.Searched.{IsSearchText};

/// A deck has one text.
pub fn search_texts_are_unique()
    ensures { (deck : DeckParts) (one other : List ℕ)
        → IsSearchText deck one → IsSearchText deck other → one ≡ other }
{}
