//! Laws of the definitions, each carried by a function without arguments that does nothing.
ghost use Rattle.std.specs.Prelude.{◌≡◌, ℕ, List};
ghost use Rattle.ch_deck.specs.Parts.{IsDeck};
ghost use Rattle.ch_demo.specs.Generated.{generated};
ghost use Rattle.ch_demo.specs.Summaries.{IsDemoText};

/// What is made from a number is a deck, as a reader of decks might have read it.
pub fn generated_decks_are_decks()
    ensures { (number : ℕ) → IsDeck (generated number) }
{}

/// A number has one text.
pub fn demo_texts_are_unique()
    ensures { (number : ℕ) (one other : List ℕ)
        → IsDemoText number one → IsDemoText number other → one ≡ other }
{}
