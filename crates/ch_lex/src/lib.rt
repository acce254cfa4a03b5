//! The words of a text: its tokens with their spans, the line and column of a place, the keywords,
//! and the error that the parsers above share.
#![tactic(auto)]

mod ahead;
mod error;
mod keyword;
mod lexer;
mod token;

pub use ch_affine::{List, Text};
pub use error::{Code2, LexError, ParseError};
pub use keyword::{Keyword, keyword_of};
pub use lexer::{spot, tokens};
pub use token::{Kind, Sign, Spot, Token};
