// The lines of a text, and what each holds.

ghost use Rattle.std.specs.Prelude.{◌≡◌, take, Some, Ok, IfSome, position};
ghost use Rattle.p3l_base.specs.Memory.{IfGiven};
ghost use Rattle.std.specs.Str.Lines.{strip_carriage_return};
ghost use Rattle.p3l_stream.specs.Lines.{is_feed, line_from, line_of};
ghost use Rattle.p3l_stream.specs.Words.{number_of};

use crate::numeral::{Numeral, front_numeral};
use crate::word::{WordFault, read_numbers};
use p3l_base::{NoMemory, Words};
use std::alloc::Global;

/// The content of a line.
#[derive(Debug, Drop)]
pub enum LineContent {
    /// No words.
    Blank,
    /// As many numbers as an item has words.
    Item(Words),
    /// A word that is not an optional minus sign and one or more digits, before any other fault.
    BadWord,
    /// Another count of numbers, this one.
    WrongCount(u64),
    /// A number outside 64 bits, before any other fault.
    OutOfRange,
}

/// The place of the first line feed.
pub(crate) fn first_feed(bytes: &[u8]) -> Option<usize>
    ensures { result ≡ position is_feed bytes.now }
{
    bytes.iter().position(|byte| *byte == b'\n')
}

/// The numeral that is the first line, if it has at most 18 digits and a line feed ends it; else
/// none need be found.
pub(crate) fn plain_line(bytes: &[u8]) -> Option<Numeral>
    ensures feed { IfSome result (λ found. Some found.len ≡ position is_feed bytes.now) }
    ensures number { IfSome result (λ found.
        number_of (take found.len bytes.now) ≡ Ok found.number) }
{
    let found = front_numeral(bytes)?;
    if found.len < bytes.len() && bytes[found.len] == b'\n' {
        return Some(found);
    }
    None
}

/// A line without one carriage return at its end, if it has one.
pub(crate) fn without_return(line: &[u8]) -> &[u8]
    ensures { result.now ≡ strip_carriage_return line.now }
{
    match line {
        [front @ .., b'\r'] => front,
        _ => line,
    }
}

/// The content of a line, where an item has `width` words.
pub(crate) fn read_line(alloc: Global, bytes: &[u8], width: u32) -> Result<LineContent, NoMemory>
    ensures { IfGiven result (λ read. read ≡ line_of width bytes.now) }
{
    match read_numbers(alloc, bytes)? {
        Ok(numbers) => Ok(counted(numbers, width)),
        Err(WordFault::Form) => Ok(LineContent::BadWord),
        Err(WordFault::Range) => Ok(LineContent::OutOfRange),
    }
}

/// The content of a line of these numbers.
fn counted(numbers: Words, width: u32) -> LineContent
    ensures { result ≡ line_from width (Ok numbers) }
{
    let had = numbers.len() as u64;
    if had == 0 {
        return LineContent::Blank;
    }
    if had == u64::from(width) {
        return LineContent::Item(numbers);
    }
    LineContent::WrongCount(had)
}
