// Numbers in decimal.

ghost use Rattle.std.specs.Prelude.{◌≡◌, ◌^◌, ◌≤◌, ◌++◌, true, length, position, IfOk};
ghost use Rattle.p3l_base.specs.Memory.{OnGiven};
ghost use Rattle.std.specs.Char.{is_ascii_digit};
ghost use Rattle.std.specs.List.{list_all};
ghost use Rattle.std.specs.Fmt.{decimal};
ghost use Rattle.p3l_format.specs.Format.{Gives};
ghost use Rattle.p3l_format.specs.Decimal.{digit_len, is_no_digit, is_plain, number_of, number_text, number_in, number_then};

use crate::fault::{Cause, ReadError};
use crate::number::fault_of;
use crate::text::read_text;
use p3l_base::NoMemory;
use std::alloc::Global;

// The place of the first byte that is no digit.
fn first_other(bytes: &[u8]) -> Option<usize>
    ensures { result ≡ position is_no_digit bytes.now }
{
    bytes.iter().position(|byte| !byte.is_ascii_digit())
}

// Counts the digits in front.
fn count_digits(bytes: &[u8]) -> usize
    ensures len { result ≡ digit_len bytes.now }
    ensures within { result ≤ length bytes.now }
{
    first_other(bytes).unwrap_or(bytes.len())
}

// Tests that there are digits, and no leading zero.
fn is_plain(digits: &[u8]) -> bool
    ensures { result ≡ is_plain digits.now }
{
    let Some((first, rest)) = digits.split_first() else {
        return false;
    };
    rest.is_empty() || *first != b'0'
}

// The number that digits write without leading zeros, if it has 128 bits.
fn number_of(digits: &[u8]) -> Option<u128>
    requires { list_all is_ascii_digit digits.now ≡ true }
    ensures { result ≡ number_of (2 ^ 128) digits.now }
{
    if !is_plain(digits) {
        return None;
    }
    match str::from_utf8(digits) {
        Ok(text) => match text.parse::<u128>() {
            Ok(number) => Some(number),
            Err(_) => None,
        },
        Err(_) => None,
    }
}

// The number in front, and what is after it.
#[tactic(auto, unfolding(crate::specs::Decimal::number_text))]
fn read_number(bytes: &[u8]) -> Result<(u128, &[u8]), ReadError>
    ensures { Gives (λ x. (x.0, x.1.now)) result ((number_text (2 ^ 128)).read bytes.now) }
{
    let (digits, rest) = bytes.split_at(count_digits(bytes));
    match number_of(digits) {
        Some(number) => Ok((number, rest)),
        None => Err(fault_of(Cause::Range, bytes)),
    }
}

/// The number from `low` to `high` in front, in decimal without leading zeros, and what is after
/// it.
#[tactic(auto, unfolding(crate::specs::Format::within))]
pub fn read_number_in(low: u128, high: u128, bytes: &[u8]) -> Result<(u128, &[u8]), ReadError>
    ensures read { Gives (λ x. (x.0, x.1.now)) result ((number_in low high).read bytes.now) }
    ensures range { IfOk result (λ x. (low ≤ x.0) × (x.0 ≤ high)) }
{
    let (number, rest) = read_number(bytes)?;
    if low <= number && number <= high {
        return Ok((number, rest));
    }
    Err(fault_of(Cause::Range, bytes))
}

/// The number from `low` to `high` in front, and what is after it and a text that has to follow.
#[tactic(auto, unfolding(crate::specs::Decimal::number_then, crate::specs::Text::then_text, crate::specs::Format::within))]
pub fn read_number_then<'a>(
    low: u128,
    high: u128,
    text: &[u8],
    bytes: &'a [u8],
) -> Result<(u128, &'a [u8]), ReadError>
    ensures read { Gives (λ x. (x.0, x.1.now))
        result ((number_then low high text.now).read bytes.now) }
    ensures range { IfOk result (λ x. (low ≤ x.0) × (x.0 ≤ high)) }
{
    let (number, rest) = read_number_in(low, high, bytes)?;
    let rest = read_text(text, rest)?;
    Ok((number, rest))
}

/// Puts a number after others, in decimal.
pub fn write_number(alloc: Global, number: u128, out: &mut Vec<u8>) -> Result<(), NoMemory>
    ensures { OnGiven result (out.new.items ≡ out.old.items ++ decimal number) }
{
    let digits = number.to_string(alloc)?;
    out.extend_from_slice(digits.as_str().as_bytes())?;
    Ok(())
}

/// Puts a number in decimal after others, and then a text.
pub fn write_number_then(
    alloc: Global,
    number: u128,
    text: &[u8],
    out: &mut Vec<u8>,
) -> Result<(), NoMemory>
    ensures { OnGiven result (out.new.items ≡ out.old.items ++ (decimal number ++ text.now)) }
{
    write_number(alloc, number, out)?;
    out.extend_from_slice(text)?;
    Ok(())
}
