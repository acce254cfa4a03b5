ghost use Rattle.std.specs.Prelude.{◌≡◌, IfSome};
ghost use Rattle.ch_lex.specs.declared.keyword.Keyword.{Keyword};
ghost use Rattle.ch_lex.specs.Keywords.{keyword_text, named, keyword_of};

/// A word that is no name.
#[derive(Clone, Copy, Debug, PartialEq, Eq)]
pub enum Keyword {
    Program,
    Recipe,
    Session,
    Client,
    Let,
    Array,
    Fill,
    For,
    Max,
    Min,
    Param,
    To,
    Step,
    Call,
    Machine,
    Eager,
    Patient,
}

impl Keyword {
    /// The word itself.
    pub fn text(self) -> &'static [u8]
        ensures { result.now ≡ keyword_text self }
    {
        match self {
            Keyword::Program => b"program",
            Keyword::Recipe => b"recipe",
            Keyword::Session => b"session",
            Keyword::Client => b"client",
            Keyword::Let => b"let",
            Keyword::Array => b"array",
            Keyword::Fill => b"fill",
            Keyword::For => b"for",
            Keyword::Max => b"max",
            Keyword::Min => b"min",
            Keyword::Param => b"param",
            Keyword::To => b"to",
            Keyword::Step => b"step",
            Keyword::Call => b"call",
            Keyword::Machine => b"machine",
            Keyword::Eager => b"eager",
            Keyword::Patient => b"patient",
        }
    }
}

fn among(candidates: &[Keyword], word: &[u8]) -> Option<Keyword>
    ensures { result ≡ named word.now candidates.now }
{
    candidates.iter().copied().find(|k| k.text() == word)
}

/// Only the keywords of the word's length are looked at.
fn look_up(word: &[u8]) -> Option<Keyword>
    ensures { result ≡ keyword_of word.now }
{
    let len = word.len();
    if len == 2 {
        among(&[Keyword::To], word)
    } else if len == 3 {
        let candidates = [Keyword::Let, Keyword::For, Keyword::Max, Keyword::Min];
        among(&candidates, word)
    } else if len == 4 {
        among(&[Keyword::Fill, Keyword::Step, Keyword::Call], word)
    } else if len == 5 {
        among(&[Keyword::Array, Keyword::Param, Keyword::Eager], word)
    } else if len == 6 {
        among(&[Keyword::Recipe, Keyword::Client], word)
    } else if len == 7 {
        let candidates = [
            Keyword::Program,
            Keyword::Session,
            Keyword::Machine,
            Keyword::Patient,
        ];
        among(&candidates, word)
    } else {
        None
    }
}

/// The keyword that a word is.
#[tactic(auto, using(crate::proofs::KeywordLaws::text_of_found))]
pub fn keyword_of(word: &[u8]) -> Option<Keyword>
    ensures exact { result ≡ keyword_of word.now }
    ensures text { IfSome result (λ k. keyword_text k ≡ word.now) }
    ensures each { (k : Keyword) → keyword_text k ≡ word.now → result ≡ Some k }
{
    look_up(word)
}

#[cfg(test)]
mod tests {
    use super::*;

    #[test]
    fn each_keyword_is_its_own_and_no_other_word_is_one(rt: HostRuntime) {
        let words: [(&[u8], Option<Keyword>); 12] = [
            (b"to", Some(Keyword::To)),
            (b"let", Some(Keyword::Let)),
            (b"step", Some(Keyword::Step)),
            (b"eager", Some(Keyword::Eager)),
            (b"client", Some(Keyword::Client)),
            (b"patient", Some(Keyword::Patient)),
            (b"", None),
            (b"t", None),
            (b"Let", None),
            (b"lets", None),
            (b"_to", None),
            (b"patients", None),
        ];
        for (word, keyword) in words {
            assert_eq!(rt; keyword_of(word), keyword);
        }
        assert_eq!(rt; Keyword::Machine.text(), b"machine".as_slice());
    }
}
