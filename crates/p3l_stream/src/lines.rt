// The stream, item by item.

ghost use Rattle.std.specs.Prelude.{◌≡◌, ◌+◌, ◌^◌, ◌≤◌, ◌<◌, ◌↔◌, ◌⊎◌, ℕ, List, [], ◌++◌, ◌||◌, if◌then◌else◌, None, Some, Ok, Result, true, false, length, take, drop, position, IfOk, IfSome, IsTrue, OnErr, OnSome};
ghost use Rattle.p3l_base.specs.Memory.{IfGiven, OnGiven, Refused};
ghost use Rattle.p3l_io.specs.Change.{change};
ghost use Rattle.p3l_stream.specs.Answers.{Answers, NextCause, TakeCause};
ghost use Rattle.p3l_stream.specs.Ended.{HasLine, IsLine};
ghost use Rattle.p3l_stream.specs.Lines.{is_feed};
ghost use Rattle.p3l_stream.specs.Next.{answer_in, answered};
ghost use Rattle.p3l_stream.specs.Part.{FitsIn, StandsFor, behind, is_faulty};
ghost use Rattle.p3l_stream.specs.Passing.{MayEndLine, MayPassFilled, MayPassLine, MayPassRead, OnlyPasses, PassesLast, RequestsOnce, moved_past};
ghost use Rattle.p3l_stream.specs.Seen.{Seen, answer_of, closed_by, ending_in, item_count, most_items, started};
ghost use Rattle.p3l_stream.specs.Words.{is_filled, number_of};

use crate::buffer::Buffer;
use crate::items::Ending;
use crate::line::{LineContent, plain_line, read_line, without_return};
use crate::long::{NINES, Shortening, how_to_shorten, last_blank};
use crate::next::{Answer, Next, answer_for, next_of};
use crate::numeral::Numeral;
use crate::part::Part;
use p3l_base::{NoMemory, Words};
use p3l_io::{Failed, Source};
use std::alloc::Global;
use std::marker::Model;

/// The most bytes that are requested at a time.
const PIECE: usize = 4096;

/// The most bytes of a word that are held before it is shortened: more than the longest number has.
const LONGEST_WORD: usize = 64;

/// The items of a source's lines, requested one by one.
///
/// Contracts see how many words an item has and how many bytes are taken at most, the bytes taken
/// and not yet answered, the number of all bytes taken, the number of lines passed, whether the
/// source was at its end, and what ended the stream.
#[derive(Drop)]
pub struct Lines {
    alloc: Global,
    words: u32,
    limit: u64,
    held: Buffer,
    taken: u64,
    passed: u64,
    at_end: bool,
    closed: Option<Result<Ending, NoMemory>>,
}

impl Model for Lines {
    ghost use Rattle.std.specs.Prelude.{◌≡◌, ◌+◌, ◌<◌, ◌≤◌, length, true};
    ghost use Rattle.p3l_stream.specs.Seen.{Seen};

    ghost Value = { Seen };

    ghost view = { λ it. record { words = it.words; limit = it.limit; held = it.held; taken = it.taken; passed = it.passed; at_end = it.at_end; closed = it.closed } };

    ghost invariant = { λ it. (it.taken ≤ it.limit) × (it.passed + length it.held ≤ it.taken) × (it.at_end ≡ true → it.taken < it.limit) };
}

impl Lines {
    /// A stream whose items have `words` words, which takes at most `limit` bytes.
    pub fn new(alloc: Global, words: u32, limit: u64) -> Result<Lines, NoMemory>
        requires words { 1 ≤ words }
        requires limit { 1 ≤ limit }
        ensures { IfGiven result (λ lines. lines ≡ started words limit) }
    {
        Ok(Lines {
            alloc,
            words,
            limit,
            held: Buffer::new(alloc, PIECE)?,
            taken: 0,
            passed: 0,
            at_end: false,
            closed: None,
        })
    }

    /// The item of the next line that has words, or how the stream ends. It then ends so at each
    /// later call too, also out of memory.
    pub fn next<S: Source>(&mut self, source: &mut S) -> Result<Next, NoMemory>
        ensures answers { self.old.closed ≡ None → Answers self.old self.new
            (change (S.observed source.old) (S.observed source.new)) (answer_in result) }
        ensures cause { self.old.closed ≡ None → NextCause (answer_in result)
            (change (S.observed source.old) (S.observed source.new)) }
        ensures closed { self.old.closed ≡ None → self.new.closed ≡ closed_by (answer_in result) }

        // Once ended, every later call returns the same ending.
        ensures again { (close : Result Ending NoMemory) → self.old.closed ≡ Some close
            → answer_in result ≡ answer_of close }
        ensures same { (close : Result Ending NoMemory) → self.old.closed ≡ Some close
            → (self.new ≡ self.old) × (source.new ≡ source.old) }

        // Nothing is requested of the source where there is a line to answer, and nothing after its
        // end.
        ensures ready { HasLine self.old.words self.old.held → source.new ≡ source.old }
        ensures at_end { self.old.at_end ≡ true → source.new ≡ source.old }

        // The bytes not yet answered are less than a piece, and the items are at most half the
        // limit and one.
        ensures refused { self.old.closed ≡ None → OnErr result Refused }
        ensures few { IfOk result (λ next. item_count (answered next) ≡ 1
            → (length self.new.held < 4096) ⊎ (source.new ≡ source.old)) }
        ensures items { IfOk result (λ next. item_count (answered next) + most_items self.new
            ≤ most_items self.old) }
    {
        match self.closed {
            Some(Ok(ending)) => Ok(next_of(Err(ending))),
            Some(Err(want)) => Err(want),
            None => {
                let answer = self.answer(source);
                self.close(&answer);
                Ok(next_of(answer?))
            }
        }
    }

    /// The ending of a stream that ended, unless memory ran out.
    pub fn ending(&self) -> Option<Ending>
        ensures { result ≡ ending_in self.now.closed }
    {
        match self.closed {
            Some(Ok(ending)) => Some(ending),
            _ => None,
        }
    }

    /// Notes what ends the stream.
    fn close(&mut self, answer: &Result<Answer, NoMemory>)
        ensures { self.new ≡ record self.old { closed = closed_by answer.now } }
    {
        self.closed = match answer {
            Ok(Ok(_)) => None,
            Ok(Err(ending)) => Some(Ok(*ending)),
            Err(want) => Some(Err(*want)),
        };
    }

    /// Answers by the lines at hand, and else by those that the source gives.
    fn answer<S: Source>(&mut self, source: &mut S) -> Result<Answer, NoMemory>
        requires within { self.old.taken ≤ self.old.limit }
        requires below { self.old.at_end ≡ true → self.old.taken < self.old.limit }
        ensures answers { Answers self.old self.new
            (change (S.observed source.old) (S.observed source.new)) result }
        ensures cause { NextCause result (change (S.observed source.old) (S.observed source.new)) }
        ensures ready { HasLine self.old.words self.old.held → source.new ≡ source.old }
        ensures at_end { self.old.at_end ≡ true → source.new ≡ source.old }
        ensures few { IfGiven result (λ answer. item_count answer ≡ 1
            → (length self.new.held < 4096) ⊎ (source.new ≡ source.old)) }
    {
        match self.pass_blanks()? {
            Some(line) => Ok(answer_for(line, self.passed)),
            None => self.read_on(source),
        }
    }

    /// Takes pieces up to the next line that has words, where none is ended at hand.
    fn read_on<S: Source>(&mut self, source: &mut S) -> Result<Answer, NoMemory>
        requires line { IsLine self.old.held }
        requires within { self.old.taken ≤ self.old.limit }
        requires below { self.old.at_end ≡ true → self.old.taken < self.old.limit }
        ensures answers { Answers self.old self.new
            (change (S.observed source.old) (S.observed source.new)) result }
        ensures cause { NextCause result (change (S.observed source.old) (S.observed source.new)) }
        ensures at_end { self.old.at_end ≡ true → source.new ≡ source.old }
        ensures few { IfGiven result (λ answer. item_count answer ≡ 1
            → length self.new.held < 4096) }
    {
        let mut part = Part::new(self.alloc, self.words);
        while !self.at_end && self.taken < self.limit {
            if self.take_piece(source)?.is_err() {
                self.held.clear();
                return Ok(Err(Ending::ReadFault));
            }
            if let Some(line) = self.pass_read(&mut part)? {
                return Ok(answer_for(line, self.passed));
            }
            if self.held.len() >= PIECE {
                self.read_ahead(&mut part)?;
            }
        }
        if self.at_end {
            let line = self.pass_last(&mut part)?;
            return Ok(answer_for(line, self.passed));
        }
        self.held.clear();
        Ok(Err(Ending::TooLong))
    }

    /// Takes the next bytes of the source, or learns that it is at its end.
    fn take_piece<S: Source>(&mut self, source: &mut S) -> Result<Result<(), Failed>, NoMemory>
        requires open { self.old.at_end ≡ false }
        requires room { self.old.taken < self.old.limit }
        ensures refused { OnErr result Refused }
        ensures requests { RequestsOnce self.old self.new
            (change (S.observed source.old) (S.observed source.new)) result }
        ensures cause { TakeCause result (change (S.observed source.old) (S.observed source.new)) }
    {
        let mut piece = [0u8; PIECE];
        let room = (self.limit - self.taken).min(PIECE as u64) as usize;
        self.take_into(source, &mut piece[..room])
    }

    /// Takes bytes of the source into a buffer, and holds them.
    fn take_into<S: Source>(
        &mut self,
        source: &mut S,
        buf: &mut [u8],
    ) -> Result<Result<(), Failed>, NoMemory>
        requires open { self.old.at_end ≡ false }
        requires filled { 0 < length buf.old }
        requires short { length buf.old ≤ 4096 }
        requires room { self.old.taken + length buf.old ≤ self.old.limit }
        ensures refused { OnErr result Refused }
        ensures requests { RequestsOnce self.old self.new
            (change (S.observed source.old) (S.observed source.new)) result }
        ensures cause { TakeCause result (change (S.observed source.old) (S.observed source.new)) }
    {
        match source.take(buf) {
            Err(failed) => Ok(Err(failed)),
            Ok(0) => {
                self.at_end = true;
                Ok(Ok(()))
            }
            Ok(count) => {
                self.taken += count as u64;
                self.held.push(&buf[..count])?;
                Ok(Ok(()))
            }
        }
    }

    /// Passes the ended lines without words, and the first that has some, if there is one.
    fn pass_blanks(&mut self) -> Result<Option<LineContent>, NoMemory>
        ensures ok { IfGiven result (MayPassFilled self.old self.new) }
        ensures err { OnErr result (OnlyPasses self.old self.new) }
    {
        while let Some(line) = self.pass_line()? {
            if !is_blank(&line) {
                return Ok(Some(line));
            }
        }
        Ok(None)
    }

    /// Passes the first line, if it is ended, and says what it holds.
    fn pass_line(&mut self) -> Result<Option<LineContent>, NoMemory>
        ensures ok { IfGiven result (MayPassLine self.old self.new) }
        ensures err { OnErr result (self.new ≡ self.old) }
    {
        match self.plain_line() {
            Some(found) => {
                let mut words = Words::new(self.alloc);
                words.push(found.number)?;
                self.pass_to(found.len);
                Ok(Some(LineContent::Item(words)))
            }
            None => self.pass_any_line(),
        }
    }

    /// The numeral that is the first line and an item, if it has at most 18 digits and a line feed
    /// ends it; else none need be found.
    fn plain_line(&self) -> Option<Numeral>
        ensures width { OnSome result (self.now.words ≡ 1) }
        ensures feed { IfSome result (λ found. Some found.len ≡ position is_feed self.now.held) }
        ensures number { IfSome result (λ found.
            number_of (take found.len self.now.held) ≡ Ok found.number) }
    {
        if self.words == 1 {
            plain_line(self.held.as_slice())
        } else {
            None
        }
    }

    /// Passes the first line, which is ended at this place.
    #[inline(always)]
    fn pass_to(&mut self, end: usize)
        requires { Some end ≡ position is_feed self.old.held }
        ensures { self.new ≡ moved_past self.old 1 (drop (end + 1) self.old.held) }
    {
        self.held.pass(end + 1);
        self.passed += 1;
    }

    /// Passes the first line, if it is ended, and says what it holds, whatever it is.
    fn pass_any_line(&mut self) -> Result<Option<LineContent>, NoMemory>
        ensures ok { IfGiven result (MayPassLine self.old self.new) }
        ensures err { OnErr result (self.new ≡ self.old) }
    {
        let Some(end) = self.held.first_feed() else {
            return Ok(None);
        };
        let line = read_line(self.alloc, without_return(self.held.front(end)), self.words)?;
        self.pass_to(end);
        Ok(Some(line))
    }

    /// Passes the line that the input's end ends, of which part was read, and says what it holds; no
    /// byte is no line.
    fn pass_last(&mut self, part: &mut Part) -> Result<LineContent, NoMemory>
        requires { FitsIn part.old self.old }
        ensures ok { IfGiven result (λ holds. (so_far : List ℕ)
            → StandsFor part.old self.old.held so_far
            → PassesLast (record self.old { held = so_far }) self.new holds) }
        ensures err { OnErr result (self.new ≡ self.old) }
    {
        part.read(without_return(self.held.front(self.held.len())))?;
        self.pass_rest(part.has_begun());
        Ok(part.end())
    }

    /// Passes the bytes at hand, a line if there are some or there were.
    fn pass_rest(&mut self, begun: bool)
        requires { (if begun then 1 else 0) + self.old.passed + length self.old.held
            ≤ self.old.taken }
        ensures { self.new ≡ moved_past self.old
            (if begun || is_filled self.old.held then 1 else 0) [] }
    {
        if begun || self.held.len() > 0 {
            self.passed += 1;
        }
        self.held.clear();
    }

    /// Passes the first line, of which part was read, and then as `pass_blanks` does.
    fn pass_read(&mut self, part: &mut Part) -> Result<Option<LineContent>, NoMemory>
        requires { FitsIn part.old self.old }
        ensures ok { IfGiven result (λ passed. (held so_far piece : List ℕ)
            → self.old.held ≡ held ++ piece → StandsFor part.old held so_far
            → MayPassRead (record self.old { held = so_far ++ piece }) self.new part.new passed) }
        ensures err { OnErr result (OnlyPasses self.old self.new) }
    {
        match self.end_line(part)? {
            None => Ok(None),
            Some(line) if is_blank(&line) => self.pass_blanks(),
            Some(line) => Ok(Some(line)),
        }
    }

    /// Passes the first line, if it is ended, of which part was read, and says what it holds.
    fn end_line(&mut self, part: &mut Part) -> Result<Option<LineContent>, NoMemory>
        requires { FitsIn part.old self.old }
        ensures ok { IfGiven result (MayEndLine self.old self.new part.old part.new) }
        ensures err { OnErr result (self.new ≡ self.old) }
    {
        let Some(end) = self.held.first_feed() else {
            return Ok(None);
        };
        part.read(without_return(self.held.front(end)))?;
        self.pass_to(end);
        Ok(Some(part.end()))
    }

    /// Reads the words at hand that are ended, of a line that isn't, so that no more of it is held than
    /// one word that is shortened.
    fn read_ahead(&mut self, part: &mut Part) -> Result<(), NoMemory>
        requires filled { 0 < length self.old.held }
        requires fits { FitsIn part.old self.old }
        ensures ok { OnGiven result ((so_far : List ℕ)
            → StandsFor part.old self.old.held so_far
            → StandsFor part.new self.new.held so_far) }
        ensures same { self.new ≡ record self.old { held = self.new.held } }
        ensures fits { OnGiven result (FitsIn part.new self.new) }
    {
        if part.is_faulty() {
            return Ok(self.let_go(part));
        }
        self.read_words(part)?;
        if part.is_faulty() {
            return Ok(self.let_go(part));
        }
        self.shorten(part)
    }

    /// Reads the words at hand that are ended, of a line that isn't.
    fn read_words(&mut self, part: &mut Part) -> Result<(), NoMemory>
        requires filled { 0 < length self.old.held }
        requires fits { FitsIn part.old self.old }
        ensures ok { OnGiven result ((so_far : List ℕ)
            → StandsFor part.old self.old.held so_far
            → StandsFor part.new self.new.held so_far) }
        ensures same { self.new ≡ record self.old { held = self.new.held } }
        ensures some { OnGiven result (0 < behind part.new + length self.new.held) }
        ensures fits { OnGiven result (FitsIn part.new self.new) }
    {
        let Some(end) = last_blank(self.held.as_slice()) else {
            return Ok(());
        };
        part.read(self.held.front(end))?;
        part.begin();
        self.held.pass(end + 1);
        Ok(())
    }

    /// Lets the bytes at hand go, of a line that is refused however it goes on.
    fn let_go(&mut self, part: &mut Part)
        requires faulty { is_faulty part.old ≡ true }
        requires some { 0 < behind part.old + length self.old.held }
        requires fits { FitsIn part.old self.old }
        ensures stands { (so_far : List ℕ) → StandsFor part.old self.old.held so_far
            → StandsFor part.new self.new.held so_far }
        ensures same { self.new ≡ record self.old { held = [] } }
        ensures fits { FitsIn part.new self.new }
    {
        part.begin();
        self.held.clear();
    }

    /// Shortens the word at hand, which isn't ended, to one that stands for it.
    fn shorten(&mut self, part: &mut Part) -> Result<(), NoMemory>
        requires open { is_faulty part.old ≡ false }
        requires fits { FitsIn part.old self.old }
        ensures ok { OnGiven result ((so_far : List ℕ)
            → StandsFor part.old self.old.held so_far
            → StandsFor part.new self.new.held so_far) }
        ensures same { self.new ≡ record self.old { held = self.new.held } }
        ensures fits { OnGiven result (FitsIn part.new self.new) }
    {
        let len = self.held.len();
        if len <= LONGEST_WORD {
            return Ok(());
        }
        let last = self.held.as_slice()[len - 1];
        match how_to_shorten(self.held.front(len - 1)) {
            Shortening::None => {}
            Shortening::Refused => {
                part.refuse();
                self.held.clear();
            }
            Shortening::TooGreat => {
                self.held.clear();
                self.held.push(&NINES)?;
                self.held.push(&[last])?;
            }
            Shortening::Zeros { minus, count } => {
                self.held.pass(count);
                if minus {
                    self.held.put_minus();
                }
            }
        }
        Ok(())
    }
}

/// Decides whether a line has no words.
fn is_blank(line: &LineContent) -> bool
    ensures { IsTrue result ↔ (line.now ≡ LineContent.Blank) }
{
    matches!(line, LineContent::Blank)
}
