//! The words of commands, which are plain names elsewhere.
ghost use Rattle.std.specs.Prelude.{◌≡◌};
ghost use Rattle.ch_script.specs.Words.{word_of, word_text};

/// A word that begins a command.
#[derive(Clone, Copy, Debug, PartialEq, Eq)]
pub enum Word {
    Permute,
    Skew,
    Shift,
    Tile,
    Unroll,
    Split,
    Peel,
    Fuse,
    Distribute,
    Datacopy,
    Accumulate,
}

impl Word {
    /// The word itself.
    pub fn text(self) -> &'static [u8]
        ensures { result.now ≡ word_text self }
    {
        match self {
            Word::Permute => b"permute",
            Word::Skew => b"skew",
            Word::Shift => b"shift",
            Word::Tile => b"tile",
            Word::Unroll => b"unroll",
            Word::Split => b"split",
            Word::Peel => b"peel",
            Word::Fuse => b"fuse",
            Word::Distribute => b"distribute",
            Word::Datacopy => b"datacopy",
            Word::Accumulate => b"accumulate",
        }
    }
}

/// The command word whose text this is.
#[tactic(auto, unfolding(crate::specs::Words::word_of))]
pub(crate) fn word_of(text: &[u8]) -> Option<Word>
    ensures { result ≡ word_of text.now }
{
    let words = [
        Word::Permute,
        Word::Skew,
        Word::Shift,
        Word::Tile,
        Word::Unroll,
        Word::Split,
        Word::Peel,
        Word::Fuse,
        Word::Distribute,
        Word::Datacopy,
        Word::Accumulate,
    ];
    words.iter().copied().find(|w| w.text() == text)
}
