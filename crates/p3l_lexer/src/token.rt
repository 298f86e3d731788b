// Tokens.

use crate::mark::Mark;
use p3l_ast::{Fault, Pos};
use p3l_base::Name;

/// The kind of a token.
#[derive(Debug, Drop)]
pub enum Lexeme {
    /// A name: a word of at most 64 bytes that is no keyword.
    Word(Name),
    /// A number, from 0 to 9223372036854775807.
    Digits(i64),
    /// A keyword or a mark of punctuation.
    Sign(Mark),
    /// A token that no program has: `BadByte`, `BadToken`, `NumberTooBig` or `NameTooLong`.
    Faulty(Fault),
}

/// The kind of a piece of a text.
#[derive(Debug, Drop)]
pub enum Piece {
    /// A blank byte or a comment, which separates tokens and means nothing.
    Gap,
    Token(Lexeme),
}

/// A token of a text, with the position of its first byte.
#[derive(Debug, Drop)]
pub struct TextToken {
    pub lexeme: Lexeme,
    pub at: Pos,
}
