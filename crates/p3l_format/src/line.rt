// Lines of a word and a number, and the lines in which faults are reported.

ghost use Rattle.std.specs.Prelude.{◌≡◌, ◌≤◌, ◌++◌, [], ◌∷◌, IfOk};
ghost use Rattle.p3l_base.specs.Memory.{OnGiven};
ghost use Rattle.p3l_format.specs.Format.{Gives};
ghost use Rattle.p3l_format.specs.Decimal.{number_then};
ghost use Rattle.p3l_format.specs.Line.{number_line, line_error, line_number};
ghost use Rattle.p3l_format.specs.Text.{text_then};

use crate::decimal::{read_number_then, write_number_then};
use crate::fault::{Cause, ReadError};
use crate::number::fault_of;
use crate::text::read_text;
use p3l_base::NoMemory;
use std::alloc::Global;

/// A fault in a line that begins here, reported at its start.
pub fn fault_at(bytes: &[u8], error: ReadError) -> ReadError
    ensures { result ≡ line_error bytes.now error }
{
    match error {
        ReadError::Wrong(_) => fault_of(Cause::Range, bytes),
        ReadError::NoMemory => ReadError::NoMemory,
    }
}

/// The number of the line in which `left` bytes are left, from 1.
pub fn line_at(bytes: &[u8], left: usize) -> u64
    ensures { result ≡ line_number bytes.now left }
{
    let front = &bytes[..bytes.len().saturating_sub(left)];
    front.iter().filter(|byte| **byte == b'\n').count() as u64 + 1
}

/// A line of a word, which ends with a blank, and a number from `low` to `high`.
#[derive(Clone, Copy, Drop)]
pub struct NumberLine<'w> {
    pub word: &'w [u8],
    pub low: u128,
    pub high: u128,
}

impl<'w> NumberLine<'w> {
    /// The number of the line in front, and what is after the line.
    #[tactic(auto, unfolding(crate::specs::Line::number_line, crate::specs::Line::line))]
    pub fn read<'a>(&self, bytes: &'a [u8]) -> Result<(u128, &'a [u8]), ReadError>
        ensures read { Gives (λ x. (x.0, x.1.now))
            result ((number_line self.now.word.now self.now.low self.now.high).read bytes.now) }
        ensures range { IfOk result (λ x. (self.now.low ≤ x.0) × (x.0 ≤ self.now.high)) }
    {
        match self.read_words(bytes) {
            Ok(read) => Ok(read),
            Err(error) => Err(fault_at(bytes, error)),
        }
    }

    // The same, where a fault is reported at its own place.
    #[tactic(auto, unfolding(crate::specs::Text::text_then))]
    fn read_words<'a>(&self, bytes: &'a [u8]) -> Result<(u128, &'a [u8]), ReadError>
        ensures read { Gives (λ x. (x.0, x.1.now))
            result ((text_then self.now.word.now (number_then self.now.low self.now.high (10
            ∷ []))).read bytes.now) }
        ensures range { IfOk result (λ x. (self.now.low ≤ x.0) × (x.0 ≤ self.now.high)) }
    {
        let rest = read_text(self.word, bytes)?;
        let (number, rest) = read_number_then(self.low, self.high, b"\n", rest)?;
        Ok((number, rest))
    }

    /// Puts the line of a number after others.
    #[tactic(auto, unfolding(crate::specs::Line::number_line, crate::specs::Line::line, crate::specs::Text::text_then, crate::specs::Decimal::number_then, crate::specs::Text::then_text, crate::specs::Format::within, crate::specs::Decimal::number_text))]
    pub fn write(&self, alloc: Global, number: u128, out: &mut Vec<u8>) -> Result<(), NoMemory>
        ensures { OnGiven result (out.new.items
            ≡ out.old.items
            ++ (number_line self.now.word.now self.now.low self.now.high).spell number) }
    {
        out.extend_from_slice(self.word)?;
        write_number_then(alloc, number, b"\n", out)
    }
}
