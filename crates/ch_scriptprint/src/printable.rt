ghost use Rattle.std.specs.Prelude.{◌≡◌, ℕ, List, Ok, IsTrue};
ghost use Rattle.ch_lex.specs.Cut.{IsCut};
ghost use Rattle.ch_lex.specs.declared.token.Token.{Token};
ghost use Rattle.ch_script.specs.Sections.{recipe_at};
ghost use Rattle.ch_script.specs.declared.section.ParsedRecipe.{ParsedRecipe};
ghost use Rattle.ch_scriptprint.specs.Printable.{is_printable};

/// A law: what is read from the tokens of a text can be printed, and is then read back. It does
/// nothing.
pub fn parsed_recipes_are_printable()
    ensures { (bytes : List ℕ) (tokens : List Token) (from : ℕ) (p : ParsedRecipe)
        → IsCut bytes 0 tokens → recipe_at bytes tokens from ≡ Ok p
        → IsTrue (is_printable p.recipe) }
{}
