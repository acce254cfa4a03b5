ghost use Rattle.std.specs.Prelude.{◌≡◌, ℕ, List, Ok};
ghost use Rattle.ch_lex.specs.Cut.{IsCut};
ghost use Rattle.ch_lex.specs.declared.token.Token.{Token};
ghost use Rattle.ch_nestparse.specs.Sections.{program_at};
ghost use Rattle.ch_nestparse.specs.declared.program.ParsedProgram.{ParsedProgram};
ghost use Rattle.ch_nestprint.specs.Printable.{IsPrintable};

/// A law: what is parsed from the tokens of a text can be printed, and is then read back. It does
/// nothing.
pub fn parsed_programs_are_printable()
    ensures { (bytes : List ℕ) (tokens : List Token) (from : ℕ) (program : ParsedProgram)
        → IsCut bytes 0 tokens → program_at bytes tokens from ≡ Ok program
        → IsPrintable program.name program.nest.arrays program.fills }
{}
