// The piece at the front of a text.

ghost use Rattle.std.specs.Prelude.{◌≡◌, ◌+◌, ◌<◌, ◌≤◌, ◌++◌, length, drop, true, false, IfSome, IfNone, Some, None, slice_index};
ghost use Rattle.std.specs.List.{list_all};
ghost use Rattle.p3l_lexer.specs.Cut.{Ends, CutsPiece, begins_with_pair};
ghost use Rattle.p3l_lexer.specs.Piece.{is_word_byte, after_close};
ghost use Rattle.p3l_lexer.specs.Position.{is_no_line_end};

use crate::bytes::word_byte;
use crate::mark::punctuation;

/// The run of letters and digits at the front, and what follows it.
fn run(text: &[u8]) -> (&[u8], &[u8])
    ensures whole { text.now ≡ result.0.now ++ result.1.now }
    ensures all { list_all is_word_byte result.0.now ≡ true }
    ensures end { Ends is_word_byte result.1.now }
{
    let mut n = 0;
    while n < text.len() && word_byte(text[n]) {
        n += 1;
    }
    text.split_at(n)
}

/// The text up to the end of its first line, and what follows.
fn line(text: &[u8]) -> (&[u8], &[u8])
    ensures whole { text.now ≡ result.0.now ++ result.1.now }
    ensures all { list_all is_no_line_end result.0.now ≡ true }
    ensures end { Ends is_no_line_end result.1.now }
{
    let mut n = 0;
    while n < text.len() && text[n] != b'\n' {
        n += 1;
    }
    text.split_at(n)
}

/// The number of bytes up to and with the first `*/`.
pub fn close(body: &[u8]) -> Option<usize>
    ensures within { IfSome result (λ n. n ≤ length body.now) }
    ensures some { IfSome result (λ n. after_close body.now ≡ Some (drop n body.now)) }
    ensures none { IfNone result (after_close body.now ≡ None) }
{
    let mut n = 0;
    while n + 1 < body.len() {
        if body[n] == b'*' && body[n + 1] == b'/' {
            return Some(n + 2);
        }
        n += 1;
    }
    None
}

/// True if a mark of two bytes is at the front.
#[tactic(auto, unfolding(crate::specs::Cut::begins_with_pair))]
fn pair(text: &[u8]) -> bool
    ensures pair { result ≡ begins_with_pair text.now }
    ensures within { result ≡ true → 1 < length text.now }
{
    match text {
        [first, second, ..] => punctuation(&[*first, *second]).is_some(),
        _ => false,
    }
}

/// The piece at the front that begins with `/`, and what follows it.
fn slash(text: &[u8]) -> (&[u8], &[u8])
    requires some { 0 < length text.now }
    requires slash { slice_index text.now 0 ≡ 47 }
    ensures { CutsPiece text.now result.0.now result.1.now }
{
    if text.len() > 1 && text[1] == b'/' {
        return line(text);
    }
    if text.len() > 1 && text[1] == b'*' {
        return comment(text);
    }
    text.split_at(1)
}

/// The comment from `/*` on at the front, and what follows it.
fn comment(text: &[u8]) -> (&[u8], &[u8])
    requires some { 1 < length text.now }
    requires slash { slice_index text.now 0 ≡ 47 }
    requires star { slice_index text.now 1 ≡ 42 }
    ensures { CutsPiece text.now result.0.now result.1.now }
{
    match close(&text[2..]) {
        Some(n) => text.split_at(n + 2),
        None => text.split_at(text.len()),
    }
}

/// The piece at the front of a text, and what follows it.
pub fn cut(text: &[u8]) -> (&[u8], &[u8])
    requires { 0 < length text.now }
    ensures { CutsPiece text.now result.0.now result.1.now }
{
    if word_byte(text[0]) {
        return run(text);
    }
    if text[0] == b'/' {
        return slash(text);
    }
    if pair(text) {
        return text.split_at(2);
    }
    text.split_at(1)
}
