// Long words that aren't ended, and shorter ones that stand for them.

ghost use Rattle.std.specs.Prelude.{◌≡◌, ◌<◌, IfSome, IsTrue, get_or, length, take, true};
ghost use Rattle.std.specs.List.{list_all};
ghost use Rattle.p3l_stream.specs.Long.{CanShorten, IsRefused, is_zero};
ghost use Rattle.p3l_stream.specs.Words.{is_blank};

use crate::word::{
    WordFault, are_digits, first_blank, read_number, separates_words, without_minus,
};

/// Digits that are no number of 64 bits, whatever comes after them.
pub(crate) const NINES: [u8; 20] = [b'9'; 20];

/// A way in which a word that isn't ended is shortened.
pub(crate) enum Shortening {
    /// Not at all.
    None,
    /// To nothing: it is no numeral, whatever comes after it.
    Refused,
    /// To nines: it is a numeral out of range, or none if another byte than a digit comes.
    TooGreat,
    /// By the zeros before its other digits.
    Zeros { minus: bool, count: usize },
}

/// The place of the last byte that separates words.
pub(crate) fn last_blank(bytes: &[u8]) -> Option<usize>
    ensures { IfSome result (λ place. (place < length bytes.now)
        × (is_blank (get_or bytes.now place 0) ≡ true)) }
{
    let mut end = bytes.len();
    while end > 0 {
        end -= 1;
        if separates_words(bytes[end]) {
            return Some(end);
        }
    }
    None
}

/// The count of zeros before another digit.
fn leading_zeros(digits: &[u8]) -> usize
    requires { 0 < length digits.now }
    ensures before { result < length digits.now }
    ensures zeros { list_all is_zero (take result digits.now) ≡ true }
{
    let mut count = 0;
    while count + 1 < digits.len() && digits[count] == b'0' {
        count += 1;
    }
    count
}

/// The way to shorten a word that isn't ended.
pub(crate) fn how_to_shorten(word: &[u8]) -> Shortening
    ensures { CanShorten word.now result }
{
    match read_number(word) {
        Ok(_) => Shortening::Zeros {
            minus: word[0] == b'-',
            count: leading_zeros(without_minus(word)),
        },
        Err(WordFault::Range) => Shortening::TooGreat,
        Err(WordFault::Form) if is_refused(word) => Shortening::Refused,
        Err(WordFault::Form) => Shortening::None,
    }
}

/// Decides whether a word is no numeral, whatever comes after it.
fn is_refused(word: &[u8]) -> bool
    ensures { IsTrue result → IsRefused word.now }
{
    let digits = without_minus(word);
    !digits.is_empty() && !are_digits(digits) && first_blank(word).is_none()
}
