// The items of a text.

use p3l_base::{List, Words};

/// The end of the items of a text. Lines count from 1, those without words too.
#[derive(Clone, Copy, Debug, Drop, PartialEq, Eq)]
pub enum Ending {
    /// Each line was an item or had no words, and the input was at its end.
    End,
    /// The line of a word that is not an optional minus sign and one or more digits.
    BadWord(u64),
    /// A line with another count of words than an item has.
    WrongCount { line: u64, had: u64 },
    /// The line of a number outside 64 bits.
    OutOfRange(u64),
    /// The source failed.
    ReadFault,
    /// The limit of bytes was reached.
    TooLong,
}

/// The items before the first line that is refused, and how they end, of which definitions speak.
#[derive(Debug, Drop)]
pub struct Items {
    pub items: List<Words>,
    pub ending: Ending,
}
