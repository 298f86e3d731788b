// Single tokens.

ghost use Rattle.std.specs.Prelude.{◌≡◌, ◌<◌, ◌↔◌, length, IsTrue, IfOk, IfErr, IfSome, IfNone, true, false};
ghost use Rattle.p3l_base.specs.Memory.{IfGiven};
ghost use Rattle.p3l_grammar.specs.Symbol.{sign, symbol, word};
ghost use Rattle.p3l_grammar.specs.Parser.{any_word, any_digits, any_num};
ghost use Rattle.p3l_reader.specs.Reading.{Begins, BeginsDigits, NotNext, IsWord, NoWord, NoSign, NoDigits, NotThere, Reads, Fails};

use crate::refusal::Refusal;
use p3l_ast::{Num, Pos, Spot};
use p3l_base::{Name, NoMemory};
use p3l_lexer::{Lexeme, Mark, TextToken};
use std::alloc::Global;

/// True if a token is this mark.
fn is_mark(token: &TextToken, mark: Mark) -> bool
    ensures { IsTrue result ↔ (symbol token.now ≡ sign mark) }
{
    match token.lexeme {
        Lexeme::Sign(found) => found.text() == mark.text(),
        _ => false,
    }
}

/// The tokens after a mark, if the mark comes next.
pub fn skip(tokens: &[TextToken], mark: Mark) -> Option<&[TextToken]>
    ensures some { IfSome result (λ rest. Begins tokens.now (sign mark) rest.now) }
    ensures shorter { IfSome result (λ rest. length rest.now < length tokens.now) }
    ensures none { IfNone result (NotNext mark tokens.now) }
{
    match tokens {
        [first, rest @ ..] => {
            if is_mark(first, mark) {
                return Some(rest);
            }
            None
        }
        [] => None,
    }
}

/// The tokens after a mark.
pub fn expect(tokens: &[TextToken], mark: Mark) -> Result<&[TextToken], Refusal>
    ensures ok { IfOk result (λ rest. Begins tokens.now (sign mark) rest.now) }
    ensures shorter { IfOk result (λ rest. length rest.now < length tokens.now) }
    ensures err { IfErr result (λ e. NotThere mark tokens.now e) }
{
    match skip(tokens, mark) {
        Some(rest) => Ok(rest),
        None => Err(Refusal::Expected { left: tokens.len() }),
    }
}

/// A name and its position.
pub fn spot_of(alloc: Global, name: &Name, pos: Pos) -> Result<Spot, NoMemory>
    ensures { IfGiven result (λ x. x ≡ record { name = name.now; pos = pos }) }
{
    let name = Name::from_text(alloc, name.as_str())?;
    Ok(Spot { name, pos })
}

/// The name that comes next.
pub fn spot(alloc: Global, tokens: &[TextToken]) -> Result<(Spot, &[TextToken]), Refusal>
    ensures ok { IfOk result (λ x. Reads any_word tokens.now x.0 x.1.now) }
    ensures shorter { IfOk result (λ x. length x.1.now < length tokens.now) }
    ensures err { IfErr result (λ e. Fails any_word tokens.now e) }
{
    match tokens {
        [
            TextToken {
                lexeme: Lexeme::Word(name),
                at,
            },
            rest @ ..,
        ] => Ok((spot_of(alloc, name, *at)?, rest)),
        _ => Err(Refusal::Expected { left: tokens.len() }),
    }
}

/// True if a name comes next.
pub fn word_comes(tokens: &[TextToken]) -> bool
    ensures yes { result ≡ true → IsWord tokens.now }
    ensures no { result ≡ false → NoWord tokens.now }
{
    match tokens {
        [
            TextToken {
                lexeme: Lexeme::Word(_),
                ..
            },
            ..
        ] => true,
        _ => false,
    }
}

/// The name that comes next, where one comes next.
pub fn name_next(
    alloc: Global,
    tokens: &[TextToken],
) -> Result<Option<(Spot, &[TextToken])>, NoMemory>
    ensures some { IfGiven result (λ o. IfSome o (λ x. Begins tokens.now (word x.0) x.1.now)) }
    ensures shorter { IfOk result (λ o. IfSome o (λ x. length x.1.now < length tokens.now)) }
    ensures none { IfOk result (λ o. IfNone o (NoWord tokens.now)) }
{
    match tokens {
        [
            TextToken {
                lexeme: Lexeme::Word(name),
                at,
            },
            rest @ ..,
        ] => Ok(Some((spot_of(alloc, name, *at)?, rest))),
        _ => Ok(None),
    }
}

/// The mark that comes next, where one comes next.
pub fn sign_next(tokens: &[TextToken]) -> Option<(Mark, &[TextToken])>
    ensures some { IfSome result (λ x. Begins tokens.now (sign x.0) x.1.now) }
    ensures shorter { IfSome result (λ x. length x.1.now < length tokens.now) }
    ensures none { IfNone result (NoSign tokens.now) }
{
    match tokens {
        [
            TextToken {
                lexeme: Lexeme::Sign(mark),
                ..
            },
            rest @ ..,
        ] => Some((*mark, rest)),
        _ => None,
    }
}

/// The number in digits that comes next, where one comes next.
pub fn digits_next(tokens: &[TextToken]) -> Option<(i64, &[TextToken])>
    ensures some { IfSome result (λ x. BeginsDigits tokens.now x.0 x.1.now) }
    ensures shorter { IfSome result (λ x. length x.1.now < length tokens.now) }
    ensures none { IfNone result (NoDigits tokens.now) }
{
    match tokens {
        [
            TextToken {
                lexeme: Lexeme::Digits(value),
                ..
            },
            rest @ ..,
        ] => Some((*value, rest)),
        _ => None,
    }
}

/// The number that comes next.
pub fn digits(tokens: &[TextToken]) -> Result<(i64, &[TextToken]), Refusal>
    ensures ok { IfOk result (λ x. Reads any_digits tokens.now x.0 x.1.now) }
    ensures shorter { IfOk result (λ x. length x.1.now < length tokens.now) }
    ensures err { IfErr result (λ e. Fails any_digits tokens.now e) }
{
    match tokens {
        [
            TextToken {
                lexeme: Lexeme::Digits(value),
                ..
            },
            rest @ ..,
        ] => Ok((*value, rest)),
        _ => Err(Refusal::Expected { left: tokens.len() }),
    }
}

/// The number or the name of a constant that comes next.
pub fn num(alloc: Global, tokens: &[TextToken]) -> Result<(Num, &[TextToken]), Refusal>
    ensures ok { IfOk result (λ x. Reads any_num tokens.now x.0 x.1.now) }
    ensures shorter { IfOk result (λ x. length x.1.now < length tokens.now) }
    ensures err { IfErr result (λ e. Fails any_num tokens.now e) }
{
    match tokens {
        [
            TextToken {
                lexeme: Lexeme::Digits(value),
                at,
            },
            rest @ ..,
        ] => Ok((Num::Digits(*value, *at), rest)),
        [
            TextToken {
                lexeme: Lexeme::Word(name),
                at,
            },
            rest @ ..,
        ] => Ok((Num::Named(spot_of(alloc, name, *at)?), rest)),
        _ => Err(Refusal::Expected { left: tokens.len() }),
    }
}
