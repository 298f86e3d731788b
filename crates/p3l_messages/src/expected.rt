// The tokens with which a program could go on.

ghost use Rattle.std.specs.Prelude.{◌≤◌, IfSome, OnErr, length};
ghost use Rattle.p3l_base.specs.Memory.{Refused};

use crate::place::put_safely;
use p3l_ast::SourceRefusal;
use p3l_base::NoMemory;
use p3l_lexer::cut::cut;
use p3l_lexer::tokens;
use p3l_reader::read;
use std::alloc::Global;

/// The tokens that are tried, as messages write them, each with a text that is one.
const CANDIDATES: &[(&str, &str)] = &[
    ("a name", "a_name_that_is_not_taken"),
    ("a number", "1"),
    ("`(`", "("),
    ("`)`", ")"),
    ("`[`", "["),
    ("`]`", "]"),
    ("`{`", "{"),
    ("`}`", "}"),
    ("`,`", ","),
    ("`;`", ";"),
    ("`=`", "="),
    ("`*`", "*"),
    ("`-`", "-"),
    ("`~`", "~"),
    ("another operator", "/"),
    ("`${`", "${"),
    ("`}$`", "}$"),
    ("`in`", "in"),
    ("`out`", "out"),
    ("`int`", "int"),
    ("`end`", "end"),
    ("`seq`", "seq"),
    ("`pipe`", "pipe"),
    ("`farm`", "farm"),
    ("`map`", "map"),
    ("`reduce`", "reduce"),
    ("`comp`", "comp"),
    ("`loop`", "loop"),
    ("`const`", "const"),
    ("`workers`", "workers"),
    ("`turns`", "turns"),
    ("`tokens`", "tokens"),
    ("`budget`", "budget"),
    ("`rescue`", "rescue"),
    ("`while`", "while"),
    ("`if`", "if"),
    ("`else`", "else"),
    ("`for`", "for"),
    ("`!`", "!"),
];

/// The most bytes before the place for which tokens are tried: each of them reads these bytes again.
const MOST_BEFORE: usize = 65_536;

/// Adds which token stands at a place, and which could. It gives true where it has found the latter.
pub(crate) fn put_expected(
    alloc: Global,
    message: &mut String,
    text: &[u8],
    row: u32,
    column: u32,
) -> Result<bool, NoMemory>
    ensures { OnErr result Refused }
{
    let Some(at) = offset_of(text, row, column) else {
        return Ok(false);
    };
    let (before, rest) = text.split_at(at);
    put_found(alloc, message, rest)?;
    if at > MOST_BEFORE {
        message.push_str(". ")?;
        return Ok(false);
    }
    put_candidates(alloc, message, before, row)?;
    message.push_str(". ")?;
    if !rest.is_empty() {
        put_end_before(alloc, message, before, row)?;
    }
    Ok(true)
}

/// Adds the token that a text begins with.
fn put_found(alloc: Global, message: &mut String, rest: &[u8]) -> Result<(), NoMemory>
    ensures { OnErr result Refused }
{
    if rest.is_empty() {
        message.push_str("Found the end of the text")?;
        return Ok(());
    }
    let (token, _) = cut(rest);
    message.push_str("Found `")?;
    put_safely(alloc, message, token)?;
    message.push_str("`")?;
    Ok(())
}

/// Adds the tokens with which a program could go on after a text that ends on this line.
fn put_candidates(
    alloc: Global,
    message: &mut String,
    before: &[u8],
    row: u32,
) -> Result<(), NoMemory>
    ensures { OnErr result Refused }
{
    let mut between = "; a program goes on with ";
    for (name, token) in CANDIDATES.iter() {
        if goes_on(alloc, before, token, row)? {
            message.push_str(between)?;
            message.push_str(name)?;
            between = ", ";
        }
    }
    Ok(())
}

/// Tells whether a program goes on with a token after a text that ends on this line: no refusal is
/// then at the token's place. It stands on a line of its own, where it is no part of a word or of a
/// comment of the text.
fn goes_on(alloc: Global, before: &[u8], token: &str, row: u32) -> Result<bool, NoMemory>
    ensures { OnErr result Refused }
{
    let mut text = Vec::from_slice(alloc, before)?;
    text.push(b'\n')?;
    text.extend_from_slice(token.as_bytes())?;
    match read(alloc, text.as_slice()) {
        Ok(_) => Ok(true),
        Err(SourceRefusal::At { pos, .. }) => {
            Ok(pos.line != row.saturating_add(1) || pos.col != 1)
        }
        Err(SourceRefusal::NoMemory) => Err(NoMemory),
    }
}

/// Adds at the end of which line something may be missing: that of the last token of a text, where it
/// is above this line. Nothing is missing in the text of a whole program.
fn put_end_before(
    alloc: Global,
    message: &mut String,
    before: &[u8],
    row: u32,
) -> Result<(), NoMemory>
    requires { length before.now ≤ 65536 }
    ensures { OnErr result Refused }
{
    let tokens = tokens(alloc, before)?;
    let Some(last) = tokens.as_slice().last() else {
        return Ok(());
    };
    if last.at.line < row && !is_program(alloc, before)? {
        let line = last.at.line;
        let text = format!(in alloc; "Something may be missing at the end of line {line}. ")?;
        message.push_str(text.as_str())?;
    }
    Ok(())
}

/// Tells whether a text is that of a whole program.
fn is_program(alloc: Global, text: &[u8]) -> Result<bool, NoMemory>
    ensures { OnErr result Refused }
{
    match read(alloc, text) {
        Ok(_) => Ok(true),
        Err(SourceRefusal::At { .. }) => Ok(false),
        Err(SourceRefusal::NoMemory) => Err(NoMemory),
    }
}

/// The number of bytes before a place, if the text has it.
fn offset_of(text: &[u8], row: u32, column: u32) -> Option<usize>
    ensures { IfSome result (λ at. at ≤ length text.now) }
{
    let mut rest = text;
    for _ in 1..row {
        let end = rest.iter().position(|byte| *byte == b'\n')?;
        rest = &rest[end + 1..];
    }
    let before = column.max(1) as usize - 1;
    if before <= rest.len() {
        Some(text.len().saturating_sub(rest.len() - before))
    } else {
        None
    }
}
