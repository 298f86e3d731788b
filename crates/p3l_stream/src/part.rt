// A line that is read before it is ended.

ghost use Rattle.std.specs.Prelude.{◌≡◌, ◌+◌, ◌^◌, ◌<◌, ◌≤◌, ℤ, List, [], Ok, Some, Result, length, true};
ghost use Rattle.p3l_base.specs.Memory.{OnGiven};
ghost use Rattle.p3l_stream.specs.declared.word.WordFault.{WordFault};
ghost use Rattle.p3l_stream.specs.Part.{is_faulty, line_after, no_part, put_all};
ghost use Rattle.p3l_stream.specs.Words.{numbers_of, put_number, words_of};

use crate::line::LineContent;
use crate::word::{WordFault, next_number};
use p3l_base::{NoMemory, Words};
use std::alloc::Global;
use std::marker::Model;
use std::mem;

/// The words that were read of a line whose end isn't at hand.
///
/// The numbers of the first words are kept, as many as an item has, and the others are counted: so a
/// line of any length takes no more memory than an item.
#[derive(Drop)]
pub(crate) struct Part {
    alloc: Global,
    width: u32,
    numbers: Words,
    count: u64,
    fault: Option<WordFault>,
    begun: bool,
}

impl Model for Part {
    ghost use Rattle.p3l_stream.specs.Part.{PartSeen};

    ghost Value = { PartSeen };

    ghost view = { λ it. record { width = it.width; numbers = it.numbers; count = it.count; fault = it.fault; begun = it.begun } };
}

impl Part {
    /// No words, of a line from which no byte was read.
    pub(crate) fn new(alloc: Global, width: u32) -> Part
        ensures { result ≡ no_part width }
    {
        Part {
            alloc,
            width,
            numbers: Words::new(alloc),
            count: 0,
            fault: None,
            begun: false,
        }
    }

    /// Decides whether a word was at fault, by which the line is refused however it goes on.
    pub(crate) fn is_faulty(&self) -> bool
        ensures { result ≡ is_faulty self.now }
    {
        self.fault.is_some()
    }

    /// Decides whether bytes of the line were read that are held no more.
    pub(crate) fn has_begun(&self) -> bool
        ensures { result ≡ self.now.begun }
    {
        self.begun
    }

    /// Notes that bytes of the line were read that are held no more.
    pub(crate) fn begin(&mut self)
        ensures { self.new ≡ record self.old { begun = true } }
    {
        self.begun = true;
    }

    /// Refuses the line for a word that is no numeral.
    pub(crate) fn refuse(&mut self)
        ensures { self.new ≡ record self.old { fault = Some WordFault.Form; begun = true } }
    {
        self.fault = Some(WordFault::Form);
        self.begun = true;
    }

    /// Reads the words of these bytes, the last of which is ended.
    pub(crate) fn read(&mut self, bytes: &[u8]) -> Result<(), NoMemory>
        requires { self.old.count + length bytes.now < 2 ^ 64 }
        ensures ok { OnGiven result ((others : Result (List ℤ) WordFault)
            → line_after self.old (put_all (numbers_of (words_of bytes.now)) others)
            ≡ line_after self.new others) }
        ensures count { self.new.count ≤ self.old.count + length bytes.now }
        ensures width { self.new.width ≡ self.old.width }
        ensures begun { self.new.begun ≡ self.old.begun }
    {
        let mut rest = bytes;
        while let Some((number, after)) = next_number(rest) {
            self.take(number)?;
            rest = after;
        }
        Ok(())
    }

    /// Takes the next word, by the number that it writes or its fault.
    fn take(&mut self, number: Result<i64, WordFault>) -> Result<(), NoMemory>
        requires { self.old.count + 1 < 2 ^ 64 }
        ensures ok { OnGiven result ((others : Result (List ℤ) WordFault)
            → line_after self.old (put_number number others) ≡ line_after self.new others) }
        ensures count { self.new.count ≤ self.old.count + 1 }
        ensures width { self.new.width ≡ self.old.width }
        ensures begun { self.new.begun ≡ self.old.begun }
    {
        if self.fault.is_some() {
            return Ok(());
        }
        match number {
            Err(fault) => self.fault = Some(fault),
            Ok(number) => {
                if self.count < u64::from(self.width) {
                    self.numbers.push(number)?;
                }
                self.count += 1;
            }
        }
        Ok(())
    }

    /// Ends the line after the words that were read, and says what it holds. Then no words are read of
    /// the next one.
    pub(crate) fn end(&mut self) -> LineContent
        ensures holds { result ≡ line_after self.old (Ok []) }
        ensures empty { self.new ≡ no_part self.old.width }
    {
        mem::replace(self, Part::new(self.alloc, self.width)).into_line()
    }

    /// The line of the words that were read.
    fn into_line(self) -> LineContent
        ensures { result ≡ line_after self (Ok []) }
    {
        match self.fault {
            Some(WordFault::Form) => LineContent::BadWord,
            Some(WordFault::Range) => LineContent::OutOfRange,
            None if self.count == 0 => LineContent::Blank,
            None if self.count == u64::from(self.width) => LineContent::Item(self.numbers),
            None => LineContent::WrongCount(self.count),
        }
    }
}
