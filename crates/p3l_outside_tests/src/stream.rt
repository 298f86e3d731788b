// The items of a stream, one by one, how it ends, and written text.

use crate::lists::{list, words_of};
use p3l_base::{List, Outcome, Trap, TrapKind};
use p3l_io::MemSource;
use p3l_stream::{Lines, Next, item_text, text_of};
use std::alloc::Global;
use std::fmt;
use std::fmt::{Display, Formatter};
use std::process::Abort;
use std::test::Fail;

#[test]
fn a_value_is_written_in_a_line(rt: HostRuntime) -> Result<(), Fail> {
    let ends = [0, -12, 9223372036854775807, -9223372036854775808];
    let words = words_of(rt.alloc(), &ends)?;
    let line = item_text(rt.alloc(), &words)?;
    let text: &[u8] = b"0 -12 9223372036854775807 -9223372036854775808\n";
    assert!(rt; line.as_slice() == text);
    Ok(())
}

/// Two values and a trap.
fn outcomes(alloc: Global) -> Result<Vec<Outcome>, Fail> {
    let trap = Trap {
        kind: TrapKind::Index,
        module: 0,
    };
    let mut outcomes = Vec::new(alloc);
    outcomes.push(Outcome::Value(words_of(alloc, &[3])?))?;
    outcomes.push(Outcome::Value(words_of(alloc, &[19, 22])?))?;
    outcomes.push(Outcome::Trapped(trap))?;
    Ok(outcomes)
}

#[test]
fn values_are_written_in_lines_and_traps_are_not(rt: HostRuntime) -> Result<(), Fail> {
    let outcomes = outcomes(rt.alloc())?;
    let text = text_of(rt.alloc(), outcomes.as_slice())?;
    assert!(rt; text.as_slice() == b"3\n19 22\n".as_slice());
    Ok(())
}

/// An answer as a text: an item as its words with a blank between two, and else its name and numbers.
#[derive(Clone, Copy)]
struct Shown<'a>(&'a Next);

impl<'a> Display for Shown<'a> {
    fn fmt<W: fmt::Write>(&self, f: &mut Formatter<W>) -> fmt::Result {
        match self.0 {
            Next::Item(words) => show_words(words.as_slice(), f),
            Next::End => f.write_str("End"),
            Next::BadWord(line) => write!(f, "BadWord {line}"),
            Next::WrongCount { line, had } => write!(f, "WrongCount {line} {had}"),
            Next::OutOfRange(line) => write!(f, "OutOfRange {line}"),
            Next::ReadFault => f.write_str("ReadFault"),
            Next::TooLong => f.write_str("TooLong"),
        }
    }
}

/// Writes words with a blank between two.
fn show_words<W: fmt::Write>(words: &[i64], f: &mut Formatter<W>) -> fmt::Result {
    for k in 0..words.len() {
        if k > 0 {
            f.write_str(" ")?;
        }
        write!(f, "{}", words[k])?;
    }
    Ok(())
}

/// Streams of items of one word, and their answers. In a stream a stroke ends a line, a caret is the
/// return before it and a tilde is a tab; a stroke is after each answer.
const OF_ONE_WORD: &str = "1/2/-3/ => 1/2/-3/End/End/
 => End/End/
9223372036854775807/ => 9223372036854775807/End/End/
9223372036854775808/ => OutOfRange 1/OutOfRange 1/
1/2/1 x/4/ => 1/2/BadWord 3/BadWord 3/
+1/ => BadWord 1/BadWord 1/
/7^/8 => 7/8/End/End/
1 2/ => WrongCount 1 2/WrongCount 1 2/
/x => BadWord 2/BadWord 2/
/1 2 => WrongCount 2 2/WrongCount 2 2/
-/ => BadWord 1/BadWord 1/
1^2/ => BadWord 1/BadWord 1/
1 9-/ => BadWord 1/BadWord 1/
-0009/ => -9/End/End/
-9223372036854775808 => -9223372036854775808/End/End/
 /9223372036854775808/ => OutOfRange 2/OutOfRange 2/
-9223372036854775809 x => OutOfRange 1/OutOfRange 1/";

/// Streams of items of two words.
const OF_TWO_WORDS: &str = " /~/^/ 5 -6 /   => 5 -6/End/End/
~1  2 ^ => 1 2/End/End/";

/// Streams of items of one word, of four bytes at most.
const OF_FOUR_BYTES: &str = "1/22/3/ => 1/TooLong/TooLong/
1/2/ => 1/2/TooLong/TooLong/";

/// A stream over a source: its text, the most that a taking gives, the number of the taking that fails,
/// the words of an item and the most bytes that are taken.
#[derive(Clone, Copy)]
struct Stream<'a> {
    text: &'a str,
    piece: usize,
    fails: &'a [u64],
    width: u32,
    limit: u64,
}

/// The bytes that a text shows.
fn bytes_of(alloc: Global, text: &str) -> Result<List<u8>, Fail> {
    let mut bytes = List::new(alloc);
    for byte in text.as_bytes() {
        bytes.push(match *byte {
            b'/' => b'\n',
            b'^' => b'\r',
            b'~' => b'\t',
            byte => byte,
        })?;
    }
    Ok(bytes)
}

/// The source of a stream.
fn source_of(alloc: Global, stream: &Stream) -> Result<MemSource, Fail> {
    let bytes = bytes_of(alloc, stream.text)?;
    let fails = list(alloc, stream.fails)?;
    Ok(MemSource::new(bytes, stream.piece.max(1), fails))
}

/// Puts the next answer after a text, with a stroke, and says whether it was an item.
fn show(
    alloc: Global,
    shown: &mut String,
    lines: &mut Lines,
    source: &mut MemSource,
) -> Result<bool, Fail> {
    let next = lines.next(source)?;
    let line = format!(in alloc; "{}/", Shown(&next))?;
    shown.push_str(line.as_str())?;
    Ok(matches!(next, Next::Item(_)))
}

/// Puts the answers of lines after a text, up to the ending and once more.
fn show_all(
    alloc: Global,
    shown: &mut String,
    lines: &mut Lines,
    source: &mut MemSource,
) -> Result<(), Fail> {
    for _ in 0..40u8 {
        if !show(alloc, shown, lines, source)? {
            break;
        }
    }
    show(alloc, shown, lines, source)?;
    Ok(())
}

/// Puts the answers of a stream after a text; gives how many takings there were.
fn show_stream(alloc: Global, shown: &mut String, stream: &Stream) -> Result<u64, Fail> {
    let mut source = source_of(alloc, stream)?;
    let mut lines = Lines::new(alloc, stream.width.max(1), stream.limit.max(1))?;
    show_all(alloc, shown, &mut lines, &mut source)?;
    Ok(source.calls())
}

/// The stream must have these answers; gives how many takings there were.
fn answer(rt: &impl Abort, alloc: Global, stream: &Stream, answers: &str) -> Result<u64, Fail> {
    let mut shown = String::new(alloc);
    let takings = show_stream(alloc, &mut shown, stream)?;
    assert_eq!(rt; shown.as_str(), answers);
    Ok(takings)
}

/// The streams of these rows, with `width` words in an item and `limit` bytes at most, must have
/// their answers however the bytes are cut.
fn answer_rows(
    rt: &impl Abort,
    alloc: Global,
    rows: &str,
    width: u32,
    limit: u64,
) -> Result<(), Fail> {
    for row in rows.lines() {
        let (text, answers) = row.split_once(" => ").ok_or("no answers")?;
        for piece in [1usize, 2, 4095, 4096, 9999] {
            let stream = Stream {
                text,
                piece,
                fails: &[],
                width,
                limit,
            };
            answer(rt, alloc, &stream, answers)?;
        }
    }
    Ok(())
}

#[test]
fn items_are_answered_one_by_one_however_the_bytes_are_cut(rt: HostRuntime) -> Result<(), Fail> {
    answer_rows(&rt, rt.alloc(), OF_ONE_WORD, 1, 99)?;
    answer_rows(&rt, rt.alloc(), OF_TWO_WORDS, 2, 99)?;
    answer_rows(&rt, rt.alloc(), OF_FOUR_BYTES, 1, 4)
}

#[test]
fn a_fault_at_each_take_ends_the_stream(rt: HostRuntime) -> Result<(), Fail> {
    let table: [(&str, u64, &str, u64); 8] = [
        ("1/2/", 1, "ReadFault/ReadFault/", 1),
        ("1/2/", 2, "ReadFault/ReadFault/", 2),
        ("1/2/", 3, "1/ReadFault/ReadFault/", 3),
        ("1/2/", 4, "1/ReadFault/ReadFault/", 4),
        ("1/2/", 5, "1/2/ReadFault/ReadFault/", 5),
        ("1/2/", 6, "1/2/End/End/", 5),
        // A line that is refused before the fault, and one that the fault drops.
        ("x/2/", 4, "BadWord 1/BadWord 1/", 2),
        ("x/2/", 2, "ReadFault/ReadFault/", 2),
    ];
    for (text, call, answers, calls) in table {
        let stream = Stream {
            text,
            piece: 1,
            fails: &[call],
            width: 1,
            limit: 99,
        };
        assert_eq!(rt; answer(&rt, rt.alloc(), &stream, answers)?, calls);
    }
    Ok(())
}

/// A word of many digits on a line, and another line.
fn long_text(alloc: Global) -> Result<String, Fail> {
    let mut text = "0".repeat(alloc, 20_000)?;
    text.push_str("7/8/")?;
    Ok(text)
}

#[test]
fn a_long_line_is_read_through_many_pieces(rt: HostRuntime) -> Result<(), Fail> {
    let text = long_text(rt.alloc())?;
    for piece in [1usize, 4096] {
        let stream = Stream {
            text: text.as_str(),
            piece,
            fails: &[],
            width: 1,
            limit: 99_999,
        };
        answer(&rt, rt.alloc(), &stream, "7/8/End/End/")?;
    }
    Ok(())
}
