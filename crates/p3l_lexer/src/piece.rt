// The kinds of pieces of a text.

ghost use Rattle.std.specs.Prelude.{◌≡◌, ◌<◌, ◌≤◌, ◌^◌, ◌∷◌, [], length, true, pos, Some, None, IsSome, MatchOption};
ghost use Rattle.p3l_base.specs.Memory.{IfGiven};
ghost use Rattle.std.specs.List.{list_all};
ghost use Rattle.p3l_lexer.specs.Mark.{keyword_of, punctuation_of};
ghost use Rattle.p3l_lexer.specs.Piece.{is_digit, is_word_byte, is_number, value_of, word_or_keyword, number_of, sign_or_byte, after_close, block_of, slash_of, piece_of};

use crate::bytes::{blank, digit, letter};
use crate::cut::close;
use crate::mark::{keyword, punctuation};
use crate::token::{Lexeme, Piece};
use p3l_ast::Fault;
use p3l_base::{Name, NoMemory};
use std::alloc::Global;

/// The most bytes of a name.
pub const NAME_LIMIT: usize = 64;

/// The name that a run of letters and digits is.
fn name(alloc: Global, text: &[u8]) -> Result<Name, NoMemory>
    requires { list_all is_word_byte text.now ≡ true }
    ensures { IfGiven result (λ name. name ≡ text.now) }
{
    match str::from_utf8(text) {
        Ok(text) => Name::from_text(alloc, text),
        Err(_) => unreachable!(),
    }
}

/// The token that begins with a letter.
#[tactic(auto, unfolding(crate::specs::Piece::word_or_keyword))]
fn word(alloc: Global, text: &[u8]) -> Result<Lexeme, NoMemory>
    requires { list_all is_word_byte text.now ≡ true }
    ensures { IfGiven result (λ lexeme. lexeme ≡ word_or_keyword (keyword_of text.now) text.now) }
{
    if let Some(mark) = keyword(text) {
        return Ok(Lexeme::Sign(mark));
    }
    if text.len() > NAME_LIMIT {
        return Ok(Lexeme::Faulty(Fault::NameTooLong));
    }
    let name = name(alloc, text)?;
    Ok(Lexeme::Word(name))
}

/// True if all bytes are digits.
fn all_digits(text: &[u8]) -> bool
    ensures { result ≡ list_all is_digit text.now }
{
    text.iter().all(|byte| digit(*byte))
}

/// True if a text is one digit, or several digits that do not begin with 0.
fn numeral(text: &[u8]) -> bool
    requires { 0 < length text.now }
    ensures { result ≡ is_number text.now }
{
    all_digits(text) && (text.len() == 1 || text[0] != b'0')
}

/// The number of decimal digits, if it is at most 9223372036854775807.
fn value(digits: &[u8]) -> Option<i64>
    requires { list_all is_digit digits.now ≡ true }
    ensures { MatchOption result (2 ^ 63
        ≤ value_of digits.now) (λ value. (value_of digits.now < 2 ^ 63)
        × (value ≡ pos (value_of digits.now))) }
{
    let mut value: u128 = 0;
    for byte in digits {
        value = value * 10 + u128::from(*byte - b'0');
        if value > i64::MAX as u128 {
            return None;
        }
    }
    Some(value as i64)
}

/// The token that begins with a digit.
#[tactic(auto, unfolding(crate::specs::Piece::number_of))]
fn number(text: &[u8]) -> Lexeme
    requires { 0 < length text.now }
    ensures { result ≡ number_of text.now }
{
    if !numeral(text) {
        return Lexeme::Faulty(Fault::BadToken);
    }
    match value(text) {
        Some(value) => Lexeme::Digits(value),
        None => Lexeme::Faulty(Fault::NumberTooBig),
    }
}

/// The piece that a byte is which is no mark.
#[tactic(auto, unfolding(crate::specs::Piece::sign_or_byte))]
fn lone(byte: u8) -> Piece
    ensures { sign_or_byte None (byte ∷ []) ≡ Some result }
{
    if blank(byte) {
        Piece::Gap
    } else if byte == b'$' {
        Piece::Token(Lexeme::Faulty(Fault::BadToken))
    } else {
        Piece::Token(Lexeme::Faulty(Fault::BadByte))
    }
}

/// The piece that begins with no letter or digit, and is no comment.
#[tactic(auto, unfolding(crate::specs::Piece::sign_or_byte))]
fn sign(text: &[u8]) -> Piece
    requires some { 0 < length text.now }
    requires piece { IsSome (sign_or_byte (punctuation_of text.now) text.now) }
    ensures { sign_or_byte (punctuation_of text.now) text.now ≡ Some result }
{
    match punctuation(text) {
        Some(mark) => Piece::Token(Lexeme::Sign(mark)),
        None => lone(text[0]),
    }
}

/// The piece of a comment from `/*` on, given the text after these two bytes.
fn block(body: &[u8]) -> Piece
    requires { IsSome (block_of (after_close body.now)) }
    ensures { block_of (after_close body.now) ≡ Some result }
{
    match close(body) {
        Some(_) => Piece::Gap,
        None => Piece::Token(Lexeme::Faulty(Fault::BadToken)),
    }
}

/// The piece that begins with `/`.
fn slash(text: &[u8]) -> Piece
    requires some { 0 < length text.now }
    requires piece { IsSome (slash_of text.now) }
    ensures { slash_of text.now ≡ Some result }
{
    if text.len() == 1 {
        return sign(text);
    }
    if text[1] == b'*' {
        return block(&text[2..]);
    }
    Piece::Gap
}

/// The kind of a text that is one piece.
pub fn piece(alloc: Global, text: &[u8]) -> Result<Piece, NoMemory>
    requires some { 0 < length text.now }
    requires piece { IsSome (piece_of text.now) }
    ensures { IfGiven result (λ piece. piece_of text.now ≡ Some piece) }
{
    if letter(text[0]) {
        let word = word(alloc, text)?;
        return Ok(Piece::Token(word));
    }
    if digit(text[0]) {
        return Ok(Piece::Token(number(text)));
    }
    if text[0] == b'/' {
        return Ok(slash(text));
    }
    Ok(sign(text))
}
