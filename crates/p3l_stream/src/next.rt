// Answers of the stream, item by item.

ghost use Rattle.std.specs.Prelude.{◌≡◌};
ghost use Rattle.p3l_stream.specs.Answers.{answer_for};
ghost use Rattle.p3l_stream.specs.Next.{answered, next_of};

use crate::items::Ending;
use crate::line::LineContent;
use p3l_base::Words;

/// An item of the stream, or how the stream ends. Lines count from 1, those without words too.
#[derive(Debug, Drop)]
pub enum Next {
    /// The words of the next line that has some.
    Item(Words),
    /// The input was at its end.
    End,
    /// The line of a word that is not an optional minus sign and one or more digits.
    BadWord(u64),
    /// A line with another count of words than an item has.
    WrongCount { line: u64, had: u64 },
    /// The line of a number outside 64 bits.
    OutOfRange(u64),
    /// The source failed.
    ReadFault,
    /// The limit of bytes was reached.
    TooLong,
}

/// An item, or how the stream ends.
pub(crate) type Answer = Result<Words, Ending>;

impl Next {
    /// The item, or the ending that the answer is.
    pub fn into_item(self) -> Result<Words, Ending>
        ensures { result ≡ answered self }
    {
        match self {
            Next::Item(words) => Ok(words),
            Next::End => Err(Ending::End),
            Next::BadWord(line) => Err(Ending::BadWord(line)),
            Next::WrongCount { line, had } => Err(Ending::WrongCount { line, had }),
            Next::OutOfRange(line) => Err(Ending::OutOfRange(line)),
            Next::ReadFault => Err(Ending::ReadFault),
            Next::TooLong => Err(Ending::TooLong),
        }
    }
}

/// The public answer, of which `into_item` is the inverse.
pub(crate) fn next_of(answer: Answer) -> Next
    ensures next { result ≡ next_of answer }
    ensures inverse { answered result ≡ answer }
{
    match answer {
        Ok(words) => Next::Item(words),
        Err(Ending::End) => Next::End,
        Err(Ending::BadWord(line)) => Next::BadWord(line),
        Err(Ending::WrongCount { line, had }) => Next::WrongCount { line, had },
        Err(Ending::OutOfRange(line)) => Next::OutOfRange(line),
        Err(Ending::ReadFault) => Next::ReadFault,
        Err(Ending::TooLong) => Next::TooLong,
    }
}

/// The answer by a line of this number; one without words is the last.
pub(crate) fn answer_for(line: LineContent, number: u64) -> Answer
    ensures { result ≡ answer_for line number }
{
    match line {
        LineContent::Blank => Err(Ending::End),
        LineContent::Item(words) => Ok(words),
        LineContent::BadWord => Err(Ending::BadWord(number)),
        LineContent::WrongCount(had) => Err(Ending::WrongCount { line: number, had }),
        LineContent::OutOfRange => Err(Ending::OutOfRange(number)),
    }
}
