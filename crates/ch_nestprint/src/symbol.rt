ghost use Rattle.std.specs.Prelude.{◌≡◌, [], ◌∷◌, ◌++◌, OnOk};

use ch_affine::{List, Text};
use ch_lex::{Keyword, Sign};
use std::alloc::{AllocError, Global};

/// A token of a printed program, without a place.
#[derive(Debug, Drop)]
pub enum Symbol {
    Name(Text),
    /// At most 2^31 in the program of a text.
    Number(u64),
    Key(Keyword),
    Mark(Sign),
}

/// Adds a name.
pub fn name(alloc: Global, out: &mut List<Symbol>, text: &Text) -> Result<(), AllocError>
    ensures { OnOk result (out.new ≡ out.old ++ Symbol.Name text.now ∷ []) }
{
    let text = text.copied(alloc)?;
    out.push(Symbol::Name(text))
}

/// Adds a number.
pub fn number(out: &mut List<Symbol>, value: u64) -> Result<(), AllocError>
    ensures { OnOk result (out.new ≡ out.old ++ Symbol.Number value ∷ []) }
{
    out.push(Symbol::Number(value))
}

/// Adds a keyword.
pub fn key(out: &mut List<Symbol>, word: Keyword) -> Result<(), AllocError>
    ensures { OnOk result (out.new ≡ out.old ++ Symbol.Key word ∷ []) }
{
    out.push(Symbol::Key(word))
}

/// Adds a sign.
pub fn mark(out: &mut List<Symbol>, sign: Sign) -> Result<(), AllocError>
    ensures { OnOk result (out.new ≡ out.old ++ Symbol.Mark sign ∷ []) }
{
    out.push(Symbol::Mark(sign))
}
