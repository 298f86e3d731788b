// Texts that have to be in front.

ghost use Rattle.std.specs.Prelude.{◌≡◌, Ok};
ghost use Rattle.std.specs.Option.{option_map};
ghost use Rattle.p3l_format.specs.Format.{Gives};
ghost use Rattle.p3l_format.specs.Text.{after_text, go_on};

use crate::fault::{Cause, ReadError};
use crate::number::fault_of;

/// Returns the bytes after a text in front.
pub fn strip<'a>(text: &[u8], bytes: &'a [u8]) -> Option<&'a [u8]>
    ensures { option_map (λ rest. rest.now) result ≡ after_text text.now bytes.now }
{
    bytes.strip_prefix(text)
}

/// Reads a text that has to be in front, and returns the bytes after it.
pub fn read_text<'a>(text: &[u8], bytes: &'a [u8]) -> Result<&'a [u8], ReadError>
    ensures { Gives (λ rest. rest.now)
        result (go_on (λ rest. Ok rest) bytes.now (after_text text.now bytes.now)) }
{
    match strip(text, bytes) {
        Some(rest) => Ok(rest),
        None => Err(fault_of(Cause::Range, bytes)),
    }
}
