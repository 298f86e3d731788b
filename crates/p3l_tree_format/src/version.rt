// The versions of images.

ghost use Rattle.std.specs.Prelude.{◌≡◌, ◌++◌};
ghost use Rattle.p3l_base.specs.Memory.{OnGiven};
ghost use Rattle.p3l_format.specs.Format.{Gives};
ghost use Rattle.p3l_tree_format.specs.Version.{version_format, version_number, version_of};

use p3l_base::NoMemory;
use p3l_format::{Cause, ReadError, fault_of, read_u32, write_u32};

/// A version of images.
#[derive(Clone, Copy, Debug, Drop, PartialEq, Eq)]
pub enum Version {
    /// The first: no module has a rescue number.
    One,
    /// The one that is written: after its name each module says whether it has a rescue number.
    Two,
}

// The version that a number stands for.
fn version_of(number: u32) -> Option<Version>
    ensures { result ≡ version_of number }
{
    match number {
        1 => Some(Version::One),
        2 => Some(Version::Two),
        _ => None,
    }
}

// The number that stands for a version.
fn version_number(version: Version) -> u32
    ensures { result ≡ version_number version }
{
    match version {
        Version::One => 1,
        Version::Two => 2,
    }
}

/// The version in the four bytes at the front, and what is after it.
#[tactic(auto, unfolding(crate::specs::Version::version_format, p3l_format::specs::Format::coded))]
pub fn read_version(bytes: &[u8]) -> Result<(Version, &[u8]), ReadError>
    ensures { Gives (λ x. (x.0, x.1.now)) result (version_format.read bytes.now) }
{
    let (number, rest) = read_u32(bytes)?;
    match version_of(number) {
        Some(version) => Ok((version, rest)),
        None => Err(fault_of(Cause::Range, bytes)),
    }
}

/// Puts a version after others.
#[tactic(auto, unfolding(crate::specs::Version::version_format, p3l_format::specs::Format::coded))]
pub fn write_version(version: Version, out: &mut Vec<u8>) -> Result<(), NoMemory>
    ensures { OnGiven result (out.new.items ≡ out.old.items ++ version_format.spell version) }
{
    write_u32(version_number(version), out)
}
