// The tokens of a text.

ghost use Rattle.std.specs.Prelude.{◌≡◌, ◌-◌, ◌<◌, ◌^◌, ◌++◌, List, length, Some, IfOk, IsSome};
ghost use Rattle.p3l_base.specs.Memory.{IfGiven, OnGiven};
ghost use Rattle.p3l_lexer.specs.declared.token.Piece.{Piece};
ghost use Rattle.p3l_lexer.specs.declared.token.TextToken.{TextToken};
ghost use Rattle.p3l_lexer.specs.Piece.{piece_of};
ghost use Rattle.p3l_lexer.specs.Token.{token_at, IsTokens};

use crate::cut::cut;
use crate::piece::piece;
use crate::position::{START, advance};
use crate::token::{Piece, TextToken};
use p3l_ast::Pos;
use p3l_base::{List, NoMemory};
use std::alloc::Global;

/// Puts the token that a piece is, if it is one, after the others.
fn put(alloc: Global, tokens: &mut List<TextToken>, text: &[u8], at: Pos) -> Result<(), NoMemory>
    requires some { 0 < length text.now }
    requires piece { IsSome (piece_of text.now) }
    ensures { OnGiven result ((piece : Piece) → piece_of text.now ≡ Some piece
        → tokens.new ≡ tokens.old ++ token_at at piece) }
{
    match piece(alloc, text)? {
        Piece::Gap => Ok(()),
        Piece::Token(lexeme) => tokens.push(TextToken { lexeme, at }),
    }
}

/// The tokens of a text in order, each the longest that begins there.
pub fn tokens(alloc: Global, text: &[u8]) -> Result<List<TextToken>, NoMemory>
    requires { length text.now < 2 ^ 32 - 1 }
    ensures found { IfGiven result (λ tokens. IsTokens text.now tokens) }
    ensures only { IfOk result (λ tokens. (others : List TextToken) → IsTokens text.now others
        → others ≡ tokens) }
{
    let mut list = List::new(alloc);
    let mut rest = text;
    let mut at = START;
    while !rest.is_empty() {
        let (front, after) = cut(rest);
        put(alloc, &mut list, front, at)?;
        at = advance(at, front);
        rest = after;
    }
    Ok(list)
}
