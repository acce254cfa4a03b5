/// A sign, in the order of the language's description.
#[derive(Clone, Copy, Debug, PartialEq, Eq)]
pub enum Sign {
    LeftParen,
    RightParen,
    LeftBracket,
    RightBracket,
    LeftBrace,
    RightBrace,
    Comma,
    Semicolon,
    Plus,
    Minus,
    Star,
    Equals,
    Less,
    AtMost,
    More,
    AtLeast,
    Increment,
}

/// What a token is. A keyword is a token of kind `Name`. A number is at most 2^31.
#[derive(Clone, Copy, Debug, PartialEq, Eq)]
pub enum Kind {
    Name,
    Number(u32),
    Sign(Sign),
}

/// A token, and the bytes that spell it: from `start` to just before `end`, counted from 0.
#[derive(Clone, Copy, Debug, PartialEq, Eq)]
pub struct Token {
    pub kind: Kind,
    pub start: u32,
    pub end: u32,
}

/// A line and a column, counted from 1. A column counts bytes.
#[derive(Clone, Copy, Debug, PartialEq, Eq)]
pub struct Spot {
    pub line: u32,
    pub column: u32,
}
