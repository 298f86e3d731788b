// The words of a line, and the numbers that they write.

ghost use Rattle.std.specs.Prelude.{◌≡◌, Some, Ok, IfSome, position};
ghost use Rattle.p3l_base.specs.Memory.{IfGiven};
ghost use Rattle.std.specs.Char.{is_ascii_digit};
ghost use Rattle.std.specs.List.{list_all};
ghost use Rattle.std.specs.Option.{option_map};
ghost use Rattle.p3l_stream.specs.Words.{IsFirstNumber, IsFirstWord, digits_of, is_blank, is_numeral, is_of_word, number_of, numbers_of, words_of};

use crate::numeral::front_numeral;
use p3l_base::{NoMemory, Words};
use std::alloc::Global;

/// Why a word writes no number.
#[derive(Clone, Copy, Debug, Drop, PartialEq, Eq)]
pub enum WordFault {
    /// It is not an optional minus sign and one or more digits.
    Form,
    /// The number is outside the 64 bits of an `i64`.
    Range,
}

/// Decides whether a byte separates words.
pub(crate) fn separates_words(byte: u8) -> bool
    ensures { result ≡ is_blank byte }
{
    byte == b' ' || byte == b'\t'
}

/// The place of the first byte that separates words.
pub(crate) fn first_blank(bytes: &[u8]) -> Option<usize>
    ensures { result ≡ position is_blank bytes.now }
{
    bytes.iter().position(|byte| separates_words(*byte))
}

/// The place of the first byte of a word.
fn first_of_word(bytes: &[u8]) -> Option<usize>
    ensures { result ≡ position is_of_word bytes.now }
{
    bytes.iter().position(|byte| !separates_words(*byte))
}

/// The first word of the bytes, and what is after it.
fn next_word(bytes: &[u8]) -> Option<(&[u8], &[u8])>
    ensures { IsFirstWord bytes.now (option_map (λ found. (found.0.now, found.1.now)) result) }
{
    let start = first_of_word(bytes)?;
    let rest = &bytes[start..];
    Some(rest.split_at(first_blank(rest).unwrap_or(rest.len())))
}

/// A word after its minus sign, if it has one.
pub(crate) fn without_minus(word: &[u8]) -> &[u8]
    ensures { result.now ≡ digits_of word.now }
{
    match word {
        [b'-', digits @ ..] => digits,
        _ => word,
    }
}

/// Decides whether each byte is a digit.
pub(crate) fn are_digits(bytes: &[u8]) -> bool
    ensures { result ≡ list_all is_ascii_digit bytes.now }
{
    bytes.iter().all(|byte| byte.is_ascii_digit())
}

/// Decides whether a word is an optional minus sign and one or more digits.
fn has_form(word: &[u8]) -> bool
    ensures { result ≡ is_numeral word.now }
{
    let digits = without_minus(word);
    !digits.is_empty() && are_digits(digits)
}

/// The number that a word writes.
pub(crate) fn read_number(word: &[u8]) -> Result<i64, WordFault>
    ensures { result ≡ number_of word.now }
{
    if !has_form(word) {
        return Err(WordFault::Form);
    }
    match str::from_utf8(word) {
        Ok(text) => match text.parse::<i64>() {
            Ok(number) => Ok(number),
            Err(_) => Err(WordFault::Range),
        },
        Err(_) => Err(WordFault::Form),
    }
}

/// The number that the first word writes and the bytes after it, where it is a numeral of at most
/// 18 digits; else none need be found.
#[inline(always)]
fn plain_number(bytes: &[u8]) -> Option<(i64, &[u8])>
    ensures { IfSome result (λ found. IsFirstNumber bytes.now (Some (Ok found.0, found.1.now))) }
{
    let start = first_of_word(bytes)?;
    let rest = &bytes[start..];
    let found = front_numeral(rest)?;
    if found.len < rest.len() && !separates_words(rest[found.len]) {
        return None;
    }
    Some((found.number, &rest[found.len..]))
}

/// The number that the first word writes, or its fault, and the bytes after it.
#[inline(always)]
pub(crate) fn next_number(bytes: &[u8]) -> Option<(Result<i64, WordFault>, &[u8])>
    ensures { IsFirstNumber bytes.now (option_map (λ found. (found.0, found.1.now)) result) }
{
    if let Some((number, after)) = plain_number(bytes) {
        return Some((Ok(number), after));
    }
    let (word, after) = next_word(bytes)?;
    Some((read_number(word), after))
}

/// The numbers that the words of a line write, or the fault of the first word that writes none.
pub(crate) fn read_numbers(alloc: Global, line: &[u8]) -> Result<Result<Words, WordFault>, NoMemory>
    ensures { IfGiven result (λ read. read ≡ numbers_of (words_of line.now)) }
{
    let mut numbers = Words::new(alloc);
    let mut rest = line;
    while let Some((number, after)) = next_number(rest) {
        match number {
            Ok(number) => numbers.push(number)?,
            Err(fault) => return Ok(Err(fault)),
        }
        rest = after;
    }
    Ok(Ok(numbers))
}
