use ch_lex::{Code2, ParseError};
use std::alloc::AllocError;
use thiserror::Error;

/// The code of a refusal of a deck.
#[derive(Clone, Copy, Debug, PartialEq, Eq)]
pub enum DeckCode {
    /// A code of the readers of words, programs and recipes.
    Plain(Code2),
    /// A session asks for a trial to be measured less than once or more than nine times.
    D13,
    /// No point of a session's grid meets the conditions between the parameters of its recipe.
    D14,
}

impl DeckCode {
    ghost use Rattle.std.specs.Prelude.{◌≡◌};
    ghost use Rattle.ch_workload.specs.Refusals.{code_text};

    /// The code as a refusal prints it.
    pub fn text(self) -> &'static [u8]
        ensures { result.now ≡ code_text self }
    {
        match self {
            DeckCode::Plain(code) => code.text(),
            DeckCode::D13 => b"D13",
            DeckCode::D14 => b"D14",
        }
    }
}

/// Why a section of a deck was not read. `at` is the byte of the place, or the length of the input
/// where the place is its end. `value` is the number of an A1, and 0 for every other code.
#[derive(Clone, Copy, Debug, PartialEq, Eq, Error)]
pub enum SectionError {
    #[error("refused {code:?} at byte {at}")]
    Refused {
        code: DeckCode,
        at: u32,
        value: i128,
    },
    #[error("out of memory")]
    Memory,
}

impl SectionError {
    ghost use Rattle.std.specs.Prelude.{◌≡◌, pos};
    ghost use Rattle.ch_workload.specs.declared.error.SectionError.TheVariants.{Refused};

    /// A refusal without a number, at byte `at`.
    pub fn refused(code: DeckCode, at: u32) -> SectionError
        ensures { result ≡ Refused code at (pos 0) }
    {
        SectionError::Refused { code, at, value: 0 }
    }
}

impl From<AllocError> for SectionError {
    ghost use Rattle.std.specs.Prelude.{◌≡◌};
    ghost use Rattle.ch_workload.specs.declared.error.SectionError.TheVariants.{Memory};

    ghost from_gives = { λ _ e. e ≡ Memory };

    fn from(_error: AllocError) -> SectionError {
        SectionError::Memory
    }
}

impl From<ParseError> for SectionError {
    ghost use Rattle.std.specs.Prelude.{◌≡◌};
    ghost use Rattle.ch_workload.specs.Refusals.{raised};

    ghost from_gives = { λ e refusal. refusal ≡ raised e };

    fn from(error: ParseError) -> SectionError {
        match error {
            ParseError::Refused { code, at, value } => SectionError::Refused {
                code: DeckCode::Plain(code),
                at,
                value,
            },
            ParseError::Memory => SectionError::Memory,
        }
    }
}
