// The text that outcomes are written as.

ghost use Rattle.std.specs.Prelude.{◌≡◌, ◌++◌, [], ◌∷◌};
ghost use Rattle.p3l_base.specs.Memory.{IfGiven, OnGiven};
ghost use Rattle.p3l_stream.specs.Text as as_text;

use p3l_base::{NoMemory, Outcome, Words};
use smallvec::SmallVec;
use std::alloc::Global;
use std::marker::Model;

/// The count of bytes of the longest word with its separator: a minus sign, nineteen digits, and a
/// space or the line feed.
const LONGEST_WORD: usize = 21;

/// The count of bytes that lie in the value itself: the longest four words'. More take memory.
const BYTES_IN_PLACE: usize = 84;

/// The bytes of a text, which contracts see as their list.
#[derive(Debug, Drop)]
pub struct Text {
    bytes: SmallVec<u8, BYTES_IN_PLACE>,
}

impl Model for Text {
    ghost use Rattle.std.specs.Prelude.{List, ℕ};

    ghost Value = { List ℕ };

    ghost view = { λ it. it.bytes.items };
}

impl Text {
    /// No bytes, and room for `room`.
    fn with_room(alloc: Global, room: usize) -> Result<Text, NoMemory>
        ensures { IfGiven result (λ text. text ≡ []) }
    {
        Ok(Text {
            bytes: SmallVec::with_capacity(alloc, room)?,
        })
    }

    /// Puts bytes after the others.
    fn append(&mut self, bytes: &[u8]) -> Result<(), NoMemory>
        ensures { OnGiven result (self.new ≡ self.old ++ bytes.now) }
    {
        self.bytes.extend_from_slice(bytes)?;
        Ok(())
    }

    /// Puts a byte after the others.
    fn push(&mut self, byte: u8) -> Result<(), NoMemory>
        ensures { OnGiven result (self.new ≡ self.old ++ byte ∷ []) }
    {
        self.bytes.push(byte)?;
        Ok(())
    }

    /// The bytes in order.
    pub fn as_slice(&self) -> &[u8]
        ensures { result.now ≡ self.now }
    {
        self.bytes.as_slice()
    }
}

/// The line of an item: its words in decimal without leading zeros, separated by one space, and a line
/// feed. Up to four words take no memory.
pub fn item_text(alloc: Global, words: &Words) -> Result<Text, NoMemory>
    ensures { IfGiven result (λ text. text ≡ as_text.item_text words.now) }
{
    let mut text = Text::with_room(alloc, words.len().saturating_mul(LONGEST_WORD))?;
    write_item(&mut text, words)?;
    Ok(text)
}

/// One line for each value, in order, and nothing for a trap.
pub fn text_of(alloc: Global, outcomes: &[Outcome]) -> Result<Text, NoMemory>
    ensures { IfGiven result (λ text. text ≡ as_text.text_of outcomes.now) }
{
    let mut text = Text::with_room(alloc, 0)?;
    for outcome in outcomes {
        if let Outcome::Value(words) = outcome {
            write_item(&mut text, words)?;
        }
    }
    Ok(text)
}

/// Puts the line of an item after a text.
fn write_item(text: &mut Text, words: &Words) -> Result<(), NoMemory>
    ensures { OnGiven result (text.new ≡ text.old ++ as_text.item_text words.now) }
{
    write_words(text, words.as_slice())?;
    text.push(b'\n')
}

/// Puts words in decimal after a text, separated by one space.
fn write_words(text: &mut Text, words: &[i64]) -> Result<(), NoMemory>
    ensures { OnGiven result (text.new ≡ text.old ++ as_text.words_text words.now) }
{
    for (index, word) in words.iter().enumerate() {
        write_word(text, index, *word)?;
    }
    Ok(())
}

/// Puts a word after a text that has `index` of the item's words.
fn write_word(text: &mut Text, index: usize, word: i64) -> Result<(), NoMemory>
    ensures { OnGiven result (text.new ≡ text.old ++ as_text.word_text index word) }
{
    if index > 0 {
        text.push(b' ')?;
    }
    let mut digits = itoa::Buffer::new();
    text.append(digits.format(word).as_bytes())
}
