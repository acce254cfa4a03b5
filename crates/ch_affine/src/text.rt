ghost use Rattle.std.specs.Prelude.{◌≡◌, [], ◌∷◌, ◌++◌, ◌<◌, length};
ghost use Rattle.std.specs.Prelude.{IfOk, OnOk, OnErr, IsTrue, ◌↔◌};
ghost use Rattle.std.specs.List.{list_all};
ghost use Rattle.std.specs.Char.{is_ascii};

use itoa::{Buffer, Integer};
use std::alloc::{AllocError, Global};
use std::marker::Model;

/// ASCII text: contracts see the list of its bytes, each of which is below 128.
#[derive(Debug, Drop)]
pub struct Text {
    bytes: Vec<u8>,
}

impl Model for Text {
    ghost use Rattle.std.specs.Prelude.{ℕ, List, IsTrue};
    ghost use Rattle.std.specs.List.{list_all};
    ghost use Rattle.std.specs.Char.{is_ascii};

    ghost Value = { List ℕ };

    ghost view = { λ t. t.bytes.items };

    ghost invariant = { λ t. IsTrue (list_all is_ascii t.bytes.items) };
}

impl Text {
    /// The empty text. It takes no memory.
    pub fn new(alloc: Global) -> Text
        ensures { result ≡ [] }
    {
        Text {
            bytes: Vec::new(alloc),
        }
    }

    pub fn of(alloc: Global, bytes: &[u8]) -> Result<Text, AllocError>
        requires ascii { IsTrue (list_all is_ascii bytes.now) }
        ensures { IfOk result (λ t. t ≡ bytes.now) }
    {
        let bytes = Vec::from_slice(alloc, bytes)?;
        Ok(Text { bytes })
    }

    pub fn push(&mut self, byte: u8) -> Result<(), AllocError>
        requires ascii { byte < 128 }
        ensures ok { OnOk result (self.new ≡ self.old ++ byte ∷ []) }
        ensures err { OnErr result (self.new ≡ self.old) }
    {
        self.bytes.push(byte)?;
        Ok(())
    }

    pub fn append(&mut self, bytes: &[u8]) -> Result<(), AllocError>
        requires ascii { IsTrue (list_all is_ascii bytes.now) }
        ensures ok { OnOk result (self.new ≡ self.old ++ bytes.now) }
        ensures err { OnErr result (self.new ≡ self.old) }
    {
        self.bytes.extend_from_slice(bytes)
    }

    /// Adds a number in decimal.
    #[tactic(auto, using(crate::proofs::Ascii::all_ascii))]
    pub fn append_number<I: Integer>(&mut self, number: I) -> Result<(), AllocError>
        ensures ok { OnOk result (self.new ≡ self.old ++ I.text number) }
        ensures err { OnErr result (self.new ≡ self.old) }
    {
        let mut buffer = Buffer::new();
        self.append(buffer.format(number).as_bytes())
    }

    /// A text of its own with the same bytes.
    pub fn copied(&self, alloc: Global) -> Result<Text, AllocError>
        ensures { IfOk result (λ t. t ≡ self.now) }
    {
        let bytes = Vec::from_slice(alloc, self.bytes.as_slice())?;
        Ok(Text { bytes })
    }

    pub fn as_bytes(&self) -> &[u8]
        ensures value { result.now ≡ self.now }
        ensures ascii { IsTrue (list_all is_ascii result.now) }
    {
        self.bytes.as_slice()
    }

    pub fn len(&self) -> usize
        ensures { result ≡ length self.now }
    {
        self.bytes.len()
    }

    pub fn is_empty(&self) -> bool
        ensures { IsTrue result ↔ (self.now ≡ []) }
    {
        self.bytes.is_empty()
    }

    /// Whether these are the text's bytes.
    pub fn is(&self, bytes: &[u8]) -> bool
        ensures { IsTrue result ↔ (self.now ≡ bytes.now) }
    {
        self.bytes.as_slice() == bytes
    }
}
