ghost use Rattle.std.specs.Prelude.{◌≡◌, ◌≤◌, ◌<◌, ◌+◌, ◌^◌, length, not, count_by, IfOk, IsTrue};
ghost use Rattle.std.specs.List.{list_all, suffix_len};
ghost use Rattle.ch_lex.specs.Bytes.{is_ascii, is_line_feed};
ghost use Rattle.ch_lex.specs.Cut.{IsCut};
ghost use Rattle.ch_lex.specs.Spots.{spot_of};
ghost use Rattle.ch_lex.specs.Tokens.{tokens_of, Gives};

use crate::ahead::{Front, begun};
use crate::error::LexError;
use crate::token::{Spot, Token};
use ch_affine::List;
use std::alloc::Global;

#[tactic(auto, using(crate::proofs::Pieces::more_gap, crate::proofs::Pieces::more_piece, crate::proofs::Pieces::stop_not_ascii, crate::proofs::Pieces::stop_bad_byte, crate::proofs::Pieces::stop_too_large, crate::proofs::Pieces::stop_end))]
fn read_tokens(alloc: Global, bytes: &[u8]) -> Result<List<Token>, LexError>
    requires { length bytes.now < 2 ^ 32 }
    ensures { Gives result (tokens_of bytes.now) }
{
    let mut found = List::new(alloc);
    let mut at = 0;
    while at < bytes.len() {
        let (front, len) = begun(bytes[at], bytes.split_at(at + 1).1);
        let start = at as u32;
        match front {
            Front::Gap => {
                at += len;
            }
            Front::Piece(kind) => {
                at += len;
                found.push(Token {
                    kind,
                    start,
                    end: at as u32,
                })?;
            }
            Front::NotAscii => return Err(LexError::NotAscii { at: start }),
            Front::BadByte => return Err(LexError::BadByte { at: start }),
            Front::NumberTooLarge => return Err(LexError::NumberTooLarge { at: start }),
        }
    }
    Ok(found)
}

/// The tokens of a text, or the first place where none begins. A number is refused at its first
/// digit.
pub fn tokens(alloc: Global, bytes: &[u8]) -> Result<List<Token>, LexError>
    requires { length bytes.now < 2 ^ 32 }
    ensures exact { Gives result (tokens_of bytes.now) }
    ensures cut { IfOk result (λ found. IsCut bytes.now 0 found) }
    ensures ascii { IfOk result (λ found. IsTrue (list_all is_ascii bytes.now)) }
{
    read_tokens(alloc, bytes)
}

/// How many line feeds there are.
fn line_feeds(bytes: &[u8]) -> usize
    ensures value { result ≡ count_by is_line_feed bytes.now }
    ensures within { result ≤ length bytes.now }
{
    bytes.iter().filter(|b| **b == b'\n').count()
}

/// How many bytes stand behind the last line feed.
fn last_line_len(bytes: &[u8]) -> usize
    ensures value { result ≡ suffix_len (λ b. not (is_line_feed b)) bytes.now }
    ensures within { result ≤ length bytes.now }
{
    bytes.iter().rev().take_while(|b| **b != b'\n').count()
}

/// The line and the column of a place, which may be the end of the text.
pub fn spot(bytes: &[u8], at: u32) -> Spot
    requires within { at ≤ length bytes.now }
    requires room { at + 1 < 2 ^ 32 }
    ensures { result ≡ spot_of bytes.now at }
{
    let before = &bytes[..at as usize];
    Spot {
        line: line_feeds(before) as u32 + 1,
        column: last_line_len(before) as u32 + 1,
    }
}

#[cfg(test)]
mod tests {
    use super::*;
    use crate::token::{Kind, Sign};
    use std::test::Fail;

    #[test]
    fn a_text_is_cut_into_its_longest_tokens(rt: HostRuntime) -> Result<(), Fail> {
        let found = tokens(rt.alloc(), b"a1 <= 2147483648#+ @\r still\n+++")?;
        let want = [
            (Kind::Name, 0, 2),
            (Kind::Sign(Sign::AtMost), 3, 5),
            (Kind::Number(2147483648), 6, 16),
            (Kind::Sign(Sign::Increment), 28, 30),
            (Kind::Sign(Sign::Plus), 30, 31),
        ];
        assert_eq!(rt; found.len(), 5);
        for (token, (kind, start, end)) in found.as_slice().iter().zip(want) {
            assert_eq!(rt; *token, Token { kind, start, end });
        }
        Ok(())
    }

    #[test]
    fn an_empty_text_has_no_token(rt: HostRuntime) -> Result<(), Fail> {
        let found = tokens(rt.alloc(), b"")?;
        assert_eq!(rt; found.len(), 0);
        Ok(())
    }

    #[test]
    fn the_first_place_where_none_begins_is_told(rt: HostRuntime) {
        let cases: [(&[u8], LexError); 7] = [
            (b"program p @ \x80", LexError::BadByte { at: 10 }),
            (b"\x80 @", LexError::NotAscii { at: 0 }),
            (b"# \x80", LexError::NotAscii { at: 2 }),
            (b"p 2147483649 @", LexError::NumberTooLarge { at: 2 }),
            (
                b"1 99999999999999999999999",
                LexError::NumberTooLarge { at: 2 },
            ),
            (b"\0", LexError::BadByte { at: 0 }),
            (b"a/b", LexError::BadByte { at: 1 }),
        ];
        for (text, error) in cases {
            assert_eq!(rt; tokens(rt.alloc(), text).err(), Some(error));
        }
    }

    #[test]
    fn lines_and_columns_count_from_1(rt: HostRuntime) {
        let text = b"ab\n\ncd\n";
        assert_eq!(rt; spot(text, 0), Spot { line: 1, column: 1 });
        assert_eq!(rt; spot(text, 2), Spot { line: 1, column: 3 });
        assert_eq!(rt; spot(text, 3), Spot { line: 2, column: 1 });
        assert_eq!(rt; spot(text, 5), Spot { line: 3, column: 2 });
        assert_eq!(rt; spot(text, 7), Spot { line: 4, column: 1 });
    }
}
