// The words of a text, and the picks that they write.

ghost use Rattle.std.specs.Prelude.{◌≡◌, ◌≢◌, [], position, length, count_by};
ghost use Rattle.std.specs.Char.{is_ascii_digit};
ghost use Rattle.std.specs.List.{list_all};
ghost use Rattle.std.specs.Option.{option_map};
ghost use Rattle.p3l_sched.specs.Picks.{IsNextWord, is_feed, is_gap, is_of_word, number_of, pick_of};

use crate::refusal::PickRefusal;

/// Returns true exactly if a byte separates words: a space, a tab, a carriage return or a line
/// feed.
fn separates(byte: u8) -> bool
    ensures { result ≡ is_gap byte }
{
    byte == b' ' || byte == b'\t' || byte == b'\r' || byte == b'\n'
}

/// The place of the first byte that separates words.
fn first_gap(bytes: &[u8]) -> Option<usize>
    ensures { result ≡ position is_gap bytes.now }
{
    bytes.iter().position(|byte| separates(*byte))
}

/// The place of the first byte of a word.
fn first_of_word(bytes: &[u8]) -> Option<usize>
    ensures { result ≡ position is_of_word bytes.now }
{
    bytes.iter().position(|byte| !separates(*byte))
}

/// The bytes before the first word, the word, and the bytes after it.
pub(crate) fn next_word(text: &[u8]) -> Option<(&[u8], &[u8], &[u8])>
    ensures { IsNextWord text.now (option_map (λ found. (found.0.now, found.1.now, found.2.now))
        result) }
{
    let start = first_of_word(text)?;
    let (gap, rest) = text.split_at(start);
    let (word, after) = rest.split_at(first_gap(rest).unwrap_or(rest.len()));
    Some((gap, word, after))
}

/// The count of line feeds.
pub(crate) fn feeds_in(bytes: &[u8]) -> u64
    ensures { result ≡ count_by is_feed bytes.now }
{
    bytes.iter().filter(|byte| **byte == b'\n').count() as u64
}

/// Returns true exactly if each byte is a digit.
fn are_digits(bytes: &[u8]) -> bool
    ensures { result ≡ list_all is_ascii_digit bytes.now }
{
    bytes.iter().all(|byte| byte.is_ascii_digit())
}

/// The number that a word writes in decimal digits, if it has 64 bits at most.
fn number_of(word: &[u8]) -> Option<u64>
    requires { word.now ≢ [] }
    ensures { result ≡ number_of word.now }
{
    if !are_digits(word) {
        return None;
    }
    match str::from_utf8(word) {
        Ok(text) => text.parse::<u64>().ok(),
        Err(_) => None,
    }
}

/// The process that a word of this line picks, of `count` processes.
pub(crate) fn pick_of(word: &[u8], line: u64, count: u32) -> Result<u32, PickRefusal>
    requires { word.now ≢ [] }
    ensures { result ≡ pick_of count line word.now }
{
    match number_of(word) {
        None => Err(PickRefusal::BadPick { line }),
        Some(pick) if pick < u64::from(count) => Ok(pick as u32),
        Some(pick) => Err(PickRefusal::NoSuchProcess { line, pick, count }),
    }
}
