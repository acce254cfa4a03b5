ghost use Rattle.std.specs.Prelude.{◌≡◌, ◌≤◌, ◌<◌, ◌+◌, ◌∷◌, ◌^◌, length};
ghost use Rattle.std.specs.List.{prefix_len};
ghost use Rattle.ch_lex.specs.Bytes.{is_digit, is_letter, is_word, is_blank, is_hash, is_comment};
ghost use Rattle.ch_lex.specs.Signs.{one_byte, two_bytes};
ghost use Rattle.ch_lex.specs.Tokens.{small_number, sign_front, begun};

use crate::token::{Kind, Sign};

/// What stands at the front of a text.
#[derive(Clone, Copy, Debug)]
pub enum Front {
    /// A blank or a comment.
    Gap,
    Piece(Kind),
    NotAscii,
    BadByte,
    NumberTooLarge,
}

fn is_digit(b: u8) -> bool
    ensures { result ≡ is_digit b }
{
    b'0' <= b && b <= b'9'
}

fn is_letter(b: u8) -> bool
    ensures { result ≡ is_letter b }
{
    (b'A' <= b && b <= b'Z') || (b'a' <= b && b <= b'z') || b == b'_'
}

fn is_word(b: u8) -> bool
    ensures { result ≡ is_word b }
{
    is_letter(b) || is_digit(b)
}

fn is_blank(b: u8) -> bool
    ensures { result ≡ is_blank b }
{
    b == b' ' || b == b'\t' || b == b'\r' || b == b'\n'
}

fn is_comment(b: u8) -> bool
    ensures { result ≡ is_comment b }
{
    b != b'\n' && b < 128
}

/// How many digits stand in front.
fn digits_len(bytes: &[u8]) -> usize
    ensures value { result ≡ prefix_len is_digit bytes.now }
    ensures within { result ≤ length bytes.now }
{
    bytes.iter().take_while(|b| is_digit(**b)).count()
}

/// How many word bytes stand in front.
fn word_len(bytes: &[u8]) -> usize
    ensures value { result ≡ prefix_len is_word bytes.now }
    ensures within { result ≤ length bytes.now }
{
    bytes.iter().take_while(|b| is_word(**b)).count()
}

/// How long the comment goes on.
fn comment_len(bytes: &[u8]) -> usize
    ensures value { result ≡ prefix_len is_comment bytes.now }
    ensures within { result ≤ length bytes.now }
{
    bytes.iter().take_while(|b| is_comment(**b)).count()
}

/// The largest number that a text may hold.
const MOST_NUMBER: u64 = 2_147_483_648;

/// The number that the digits write, and `None` past the largest one.
fn small_number(first: u8, others: &[u8]) -> Option<u32>
    ensures { result ≡ small_number (first ∷ others.now) }
{
    let mut number = u64::from(first.saturating_sub(b'0'));
    for digit in others {
        number = number * 10 + u64::from(digit.saturating_sub(b'0'));
        if number > MOST_NUMBER {
            return None;
        }
    }
    Some(number as u32)
}

fn one_byte(b: u8) -> Option<Sign>
    ensures { result ≡ one_byte b }
{
    match b {
        b'(' => Some(Sign::LeftParen),
        b')' => Some(Sign::RightParen),
        b'[' => Some(Sign::LeftBracket),
        b']' => Some(Sign::RightBracket),
        b'{' => Some(Sign::LeftBrace),
        b'}' => Some(Sign::RightBrace),
        b',' => Some(Sign::Comma),
        b';' => Some(Sign::Semicolon),
        b'+' => Some(Sign::Plus),
        b'-' => Some(Sign::Minus),
        b'*' => Some(Sign::Star),
        b'=' => Some(Sign::Equals),
        b'<' => Some(Sign::Less),
        b'>' => Some(Sign::More),
        _ => None,
    }
}

fn two_bytes(b: u8, c: u8) -> Option<Sign>
    ensures { result ≡ two_bytes b c }
{
    if b == b'<' && c == b'=' {
        Some(Sign::AtMost)
    } else if b == b'>' && c == b'=' {
        Some(Sign::AtLeast)
    } else if b == b'+' && c == b'+' {
        Some(Sign::Increment)
    } else {
        None
    }
}

/// What a byte begins that starts nothing else, where `c` is the byte after it, or 0.
#[tactic(auto, unfolding(crate::specs::Tokens::sign_front))]
fn sign_front(b: u8, c: u8) -> (Front, usize)
    ensures value { result ≡ sign_front b c }
    ensures some { 0 < result.1 }
    ensures few { result.1 ≤ 2 }
    ensures within { c ≡ 0 → result.1 ≤ 1 }
{
    if let Some(sign) = two_bytes(b, c) {
        return (Front::Piece(Kind::Sign(sign)), 2);
    }
    match one_byte(b) {
        Some(sign) => (Front::Piece(Kind::Sign(sign)), 1),
        None => (Front::BadByte, 1),
    }
}

/// What the byte begins, and its length, where `rest` are the bytes after it.
#[tactic(auto, unfolding(crate::specs::Tokens::begun))]
pub fn begun(b: u8, rest: &[u8]) -> (Front, usize)
    requires { length rest.now < 2 ^ 32 }
    ensures value { result ≡ begun b rest.now }
    ensures some { 0 < result.1 }
    ensures within { result.1 ≤ length rest.now + 1 }
{
    if is_blank(b) {
        return (Front::Gap, 1);
    }
    if b == b'#' {
        return (Front::Gap, comment_len(rest) + 1);
    }
    if is_letter(b) {
        return (Front::Piece(Kind::Name), word_len(rest) + 1);
    }
    if is_digit(b) {
        let len = digits_len(rest);
        return match small_number(b, &rest[..len]) {
            Some(number) => (Front::Piece(Kind::Number(number)), len + 1),
            None => (Front::NumberTooLarge, len + 1),
        };
    }
    if b >= 128 {
        return (Front::NotAscii, 1);
    }
    match rest {
        [next, ..] => sign_front(b, *next),
        [] => sign_front(b, 0),
    }
}
