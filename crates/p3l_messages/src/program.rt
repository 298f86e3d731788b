// Messages on a program that is refused.

ghost use Rattle.std.specs.Prelude.{OnErr};
ghost use Rattle.p3l_base.specs.Memory.{Refused};

use crate::arity::put_arity;
use crate::expected::put_expected;
use crate::heard::place_in;
use crate::place::{Style, column_in, line_of, put_line, put_place, put_safely};
use crate::wiring::put_wiring;
use p3l_ast::{Fault, Pos};
use p3l_base::NoMemory;
use std::alloc::Global;

/// Adds the place that a refusal names and its line to a message, and what it is about to a text. It
/// gives true where the page of the refusal would only repeat the text.
pub(crate) fn put_refusal(
    alloc: Global,
    message: &mut String,
    about: &mut String,
    style: Style,
    file: &str,
    text: &[u8],
    heard: &str,
    number: &str,
) -> Result<bool, NoMemory>
    ensures { OnErr result Refused }
{
    let Some((row, column)) = place_in(heard) else {
        return Ok(false);
    };
    let Some(line) = line_of(text, row) else {
        put_place(alloc, message, style, file, row, Some(column))?;
        return Ok(false);
    };
    let shown = column_in(alloc, line, column)?;
    put_place(alloc, message, style, file, row, Some(shown))?;
    put_line(alloc, message, style, line, column)?;
    let at = Pos {
        line: row,
        col: column,
    };
    put_about(alloc, about, text, at, rest_of(line, column), number)
}

/// Adds what a refusal at a place is about, by the text and by the rest of its line. It gives true
/// where the page of the refusal would only repeat it.
fn put_about(
    alloc: Global,
    about: &mut String,
    text: &[u8],
    at: Pos,
    rest: &[u8],
    number: &str,
) -> Result<bool, NoMemory>
    ensures { OnErr result Refused }
{
    if is_number_of(Fault::Expected, number) {
        return put_expected(alloc, about, text, at.line, at.col);
    }
    if is_number_of(Fault::BadByte, number) {
        put_byte(alloc, about, rest)?;
        return Ok(true);
    }
    let is_said = if is_number_of(Fault::Arity, number) {
        put_arity(alloc, about, text, at)?
    } else if is_number_of(Fault::Wiring, number) {
        put_wiring(alloc, about, text, at)?
    } else {
        false
    };
    if names_something(number) && !is_said {
        about.push_str("It is about `")?;
        put_safely(alloc, about, word_at(rest))?;
        about.push_str("`. ")?;
    }
    Ok(false)
}

/// Adds which character no program has outside comments.
fn put_byte(alloc: Global, about: &mut String, rest: &[u8]) -> Result<(), NoMemory>
    ensures { OnErr result Refused }
{
    let found = character_at(rest);
    about.push_str("Found `")?;
    put_safely(alloc, about, found)?;
    about.push_str("`, which stands in comments alone: `// ..` or `/* .. */`. ")?;
    if found == b".".as_slice() {
        about.push_str("Values are whole numbers. ")?;
    }
    Ok(())
}

/// The character that bytes begin with, or their first byte.
fn character_at(bytes: &[u8]) -> &[u8] {
    let len = match bytes.first() {
        Some(0xc2..=0xdf) => 2,
        Some(0xe0..=0xef) => 3,
        Some(0xf0..=0xf4) => 4,
        _ => 1,
    };
    let front = &bytes[..bytes.len().min(len)];
    match std::str::from_utf8(front) {
        Ok(_) => front,
        Err(_) => &bytes[..bytes.len().min(1)],
    }
}

/// Returns true exactly if a number of refusal is this fault's.
fn is_number_of(fault: Fault, number: &str) -> bool {
    number.parse::<u8>().ok() == Some(fault.number())
}

/// Returns true exactly if a number of refusal is about the name at its place.
fn names_something(number: &str) -> bool {
    match number.parse::<u8>() {
        Ok(10) | Ok(20) | Ok(22..=28) | Ok(40..=44) => true,
        _ => false,
    }
}

/// The part of a line from a column on.
fn rest_of(line: &[u8], column: u32) -> &[u8] {
    let at = (column.max(1) as usize - 1).min(line.len());
    &line[at..]
}

/// The word that bytes begin with, or their first byte.
fn word_at(bytes: &[u8]) -> &[u8] {
    let len = match bytes.iter().position(|byte| !is_word_byte(*byte)) {
        Some(0) => 1,
        Some(len) => len,
        None => bytes.len(),
    };
    &bytes[..len.min(bytes.len())]
}

/// Returns true exactly if a byte can be part of a name.
fn is_word_byte(byte: u8) -> bool {
    byte == b'_' || byte.is_ascii_alphanumeric()
}
