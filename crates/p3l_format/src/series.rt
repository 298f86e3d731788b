// Values up to a text that ends them.

ghost use Rattle.std.specs.Prelude.{◌≡◌, ℕ, List, ◌++◌, ◌<◌, length, true, Ok};
ghost use Rattle.p3l_base.specs.Memory.{OnGiven};
ghost use Rattle.p3l_format.specs.Format.{Format, Gives};
ghost use Rattle.p3l_format.specs.Series.{fits_from, spell_from, until};

use crate::fault::ReadError;
use crate::text::strip;
use p3l_base::{List, NoMemory};
use std::alloc::Global;

/// A kind of item in a series, whose format may depend on the item before. It holds the facts
/// that its format depends on.
pub trait Item: Copy + Drop {
    /// The type of the item's value.
    type Value;

    ghost format: { Self → Format ℕ Self.Value };

    ghost next: { Self.Value → Self };

    /// The kind of the item after a value.
    fn after(value: &Self::Value) -> Self
        ensures { result ≡ next value.now };

    /// The value at the front, and the bytes after it.
    fn read<'a>(&self, alloc: Global, bytes: &'a [u8]) -> Result<(Self::Value, &'a [u8]), ReadError>
        ensures { Gives (λ x. (x.0, x.1.now)) result ((format self.now).read bytes.now) };

    /// Puts the value's spelling after others.
    fn write(&self, alloc: Global, value: &Self::Value, out: &mut Vec<u8>) -> Result<(), NoMemory>
        requires { (format self.now).fits value.now ≡ true }
        ensures { OnGiven result (out.new.items
            ≡ out.old.items ++ (format self.now).spell value.now) };

    ghost takes_some: { (it : Self) (s : List ℕ) (v : Self.Value) (rest : List ℕ) → (format it).read s ≡ Ok (v, rest) → length rest < length s };
}

/// The values in front of a text, each read as the kind that its forerunner makes it, and what is
/// after the text.
#[tactic(auto, unfolding(crate::specs::Series::until))]
pub fn read_until<'a, I: Item>(
    alloc: Global,
    first: I,
    stop: &[u8],
    bytes: &'a [u8],
) -> Result<(List<I::Value>, &'a [u8]), ReadError>
where
    I::Value: Drop,
    ensures { Gives (λ x. (x.0, x.1.now))
        result ((until I.format I.next first stop.now).read bytes.now) }
{
    let mut values = List::new(alloc);
    let mut kind = first;
    let mut rest = bytes;
    loop {
        if let Some(after) = strip(stop, rest) {
            return Ok((values, after));
        }
        let (value, after) = kind.read(alloc, rest)?;
        kind = I::after(&value);
        values.push(value)?;
        rest = after;
    }
}

/// Puts the spellings of values after others, in order, each as the kind that its forerunner
/// makes it.
pub fn write_series<I: Item>(
    alloc: Global,
    first: I,
    values: &[I::Value],
    out: &mut Vec<u8>,
) -> Result<(), NoMemory>
    requires { fits_from I.format I.next first values.now ≡ true }
    ensures { OnGiven result (out.new.items
        ≡ out.old.items ++ spell_from I.format I.next first values.now) }
{
    let mut kind = first;
    for value in values {
        kind.write(alloc, value, out)?;
        kind = I::after(value);
    }
    Ok(())
}
