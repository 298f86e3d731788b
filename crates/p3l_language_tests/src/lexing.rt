// Texts and their tokens, with expected positions counted by hand.

use p3l_ast::{BinOp, Fault, Pos};
use p3l_lexer::{Lexeme, Mark, TextToken, end_of, tokens};
use std::alloc::Global;
use std::process::Abort;
use std::test::Fail;

/// A token that is expected: what it is, its line and its column.
#[derive(Clone, Copy, Debug)]
enum Wanted<'a> {
    Name(&'a str, u32, u32),
    Number(i64, u32, u32),
    Sign(Mark, u32, u32),
    Fault(Fault, u32, u32),
}

/// Returns true exactly if a token is the wanted one.
fn is_wanted(token: &TextToken, wanted: &Wanted<'_>) -> bool {
    match (&token.lexeme, wanted) {
        (Lexeme::Word(name), Wanted::Name(text, line, col)) => {
            name.as_str() == *text && stands_at(token.at, *line, *col)
        }
        (Lexeme::Digits(found), Wanted::Number(value, line, col)) => {
            *found == *value && stands_at(token.at, *line, *col)
        }
        (Lexeme::Sign(found), Wanted::Sign(mark, line, col)) => {
            *found == *mark && stands_at(token.at, *line, *col)
        }
        (Lexeme::Faulty(found), Wanted::Fault(fault, line, col)) => {
            *found == *fault && stands_at(token.at, *line, *col)
        }
        _ => false,
    }
}

fn stands_at(at: Pos, line: u32, col: u32) -> bool {
    at.line == line && at.col == col
}

/// Asserts that a text has exactly these tokens.
fn expect(rt: &impl Abort, alloc: Global, text: &str, wanted: &[Wanted<'_>]) -> Result<(), Fail> {
    assert!(rt; text.len() < 1000);
    let found = tokens(alloc, text.as_bytes())?;
    let found = found.as_slice();
    assert_eq!(rt; found.len(), wanted.len(), "{text}");
    for (token, wanted) in found.iter().zip(wanted) {
        assert!(rt; is_wanted(token, wanted), "{text}: {token:?}");
    }
    Ok(())
}

#[test]
fn texts_have_these_tokens(rt: HostRuntime) -> Result<(), Fail> {
    let alloc = rt.alloc();
    expect(&rt, alloc, "", &[])?;
    expect(
        &rt,
        alloc,
        "a<<=b\n  c[1]",
        &[
            Wanted::Name("a", 1, 1),
            Wanted::Sign(Mark::Operator(BinOp::Shl), 1, 2),
            Wanted::Sign(Mark::Assign, 1, 4),
            Wanted::Name("b", 1, 5),
            Wanted::Name("c", 2, 3),
            Wanted::Sign(Mark::OpenBracket, 2, 4),
            Wanted::Number(1, 2, 5),
            Wanted::Sign(Mark::CloseBracket, 2, 6),
        ],
    )?;
    expect(
        &rt,
        alloc,
        "x // y\r\n/*/ z\n*/ seq$ }$}",
        &[
            Wanted::Name("x", 1, 1),
            Wanted::Sign(Mark::Seq, 3, 4),
            Wanted::Fault(Fault::BadToken, 3, 7),
            Wanted::Sign(Mark::CloseBody, 3, 9),
            Wanted::Sign(Mark::CloseBrace, 3, 11),
        ],
    )?;
    expect(
        &rt,
        alloc,
        "0 00 1a 9223372036854775807 9223372036854775808 # /*/",
        &[
            Wanted::Number(0, 1, 1),
            Wanted::Fault(Fault::BadToken, 1, 3),
            Wanted::Fault(Fault::BadToken, 1, 6),
            Wanted::Number(9223372036854775807, 1, 9),
            Wanted::Fault(Fault::NumberTooBig, 1, 29),
            Wanted::Fault(Fault::BadByte, 1, 49),
            Wanted::Fault(Fault::BadToken, 1, 51),
        ],
    )?;
    let longest = "a234567890123456789012345678901234567890123456789012345678901234";
    let too_long = "a234567890123456789012345678901234567890123456789012345678901234x";
    expect(&rt, alloc, longest, &[Wanted::Name(longest, 1, 1)])?;
    expect(
        &rt,
        alloc,
        too_long,
        &[Wanted::Fault(Fault::NameTooLong, 1, 1)],
    )?;
    Ok(())
}

#[test]
fn the_end_stands_after_the_last_byte(rt: HostRuntime) -> Result<(), Fail> {
    assert_eq!(rt; end_of(b""), Pos { line: 1, col: 1 });
    assert_eq!(rt; end_of(b"ab\n\nc\r"), Pos { line: 3, col: 3 });
    Ok(())
}
