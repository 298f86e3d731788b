//! The tokens of a source text: each the longest there is, with its position; a faulty one is a
//! token too.
#![tactic(auto)]

pub mod bytes;
pub mod cut;
pub mod lexer;
pub mod mark;
pub mod piece;
pub mod position;
pub mod token;

pub use lexer::tokens;
pub use mark::Mark;
pub use position::end_of;
pub use token::{Lexeme, Piece, TextToken};
