// Lines as a terminal may get them.

ghost use Rattle.p3l_base.specs.Memory.{Refused};
ghost use Rattle.std.specs.Prelude.{◌≤◌, OnErr, length};

use p3l_base::NoMemory;
use std::alloc::Global;

/// The most bytes of a word that a terminal shows; the rest of a longer one is cut.
const MOST_SHOWN: usize = 200;

/// The digits of base 16.
const DIGITS: &[u8; 16] = b"0123456789abcdef";

/// The line with bytes that would steer a terminal written as `\x1b`, and its long words cut.
pub fn safe_line(alloc: Global, line: &[u8]) -> Result<Vec<u8>, NoMemory>
    ensures { OnErr result Refused }
{
    let mut safe = Vec::new(alloc);
    // the bytes left that a terminal would read as one, and the count of bytes of the word so far
    let mut steering: usize = 0;
    let mut shown: usize = 0;
    for at in 0..line.len() {
        if steering == 0 {
            steering = steering_len(&line[at..]);
        }
        shown = if is_gap(line[at]) {
            0
        } else {
            shown.saturating_add(1)
        };
        if shown <= MOST_SHOWN {
            put_byte(&mut safe, line[at], steering > 0)?;
        } else if shown == MOST_SHOWN + 1 {
            safe.extend_from_slice(b"..")?;
        }
        steering = steering.saturating_sub(1);
    }
    Ok(safe)
}

/// Returns true exactly if a byte parts two words.
fn is_gap(byte: u8) -> bool {
    byte == b' ' || byte == b'\n'
}

/// Adds a byte as it is, or by its number; a tab becomes one blank, as the place below it counts.
fn put_byte(safe: &mut Vec<u8>, byte: u8, is_steering: bool) -> Result<(), NoMemory>
    ensures { OnErr result Refused }
{
    if is_steering {
        let high = DIGITS[(byte / 16) as usize];
        let low = DIGITS[(byte % 16) as usize];
        safe.extend_from_slice(&[b'\\', b'x', high, low])?;
    } else if byte == b'\t' {
        safe.push(b' ')?;
    } else {
        safe.push(byte)?;
    }
    Ok(())
}

/// Counts the next bytes that would steer a terminal: control characters of both sets, marks of
/// direction, and separators of lines and paragraphs. Tabs and the feed that ends the line do not.
fn steering_len(rest: &[u8]) -> usize
    ensures { result ≤ length rest.now }
{
    let first = byte_at(rest, 0);
    if first == b'\t' || (first == b'\n' && rest.len() == 1) {
        return 0;
    }
    let len = match (first, byte_at(rest, 1), byte_at(rest, 2)) {
        (0x00..=0x1f, _, _) | (0x7f, _, _) => 1,
        (0xc2, 0x80..=0x9f, _) => 2,
        (0xe2, 0x80, 0x8e..=0x8f) | (0xe2, 0x80, 0xa8..=0xae) | (0xe2, 0x81, 0xa6..=0xa9) => 3,
        _ => 0,
    };
    len.min(rest.len())
}

/// The byte at a place, or 0 past the end.
fn byte_at(bytes: &[u8], at: usize) -> u8 {
    match bytes.get(at) {
        Some(byte) => *byte,
        None => 0,
    }
}
