// The segments that a token is cut into.

ghost use Rattle.std.specs.Prelude.{◌≡◌, ◌≤◌, ◌^◌};
ghost use Rattle.p3l_base.specs.Memory.{IfGiven};
ghost use Rattle.p3l_firing.specs.Segments.{halved, segment_lengths, level_up_to};

use p3l_base::NoMemory;
use std::alloc::Global;

/// The number of times that the segments can be halved, at most `most`.
pub(crate) fn level_within(most: u32, segments: u32) -> u32
    ensures value { result ≡ level_up_to most segments }
    ensures bounded { result ≤ most }
{
    if most == 0 {
        0
    } else if segments < 2 {
        0
    } else {
        1 + level_within(most - 1, segments / 2)
    }
}

/// The number of segments that are halved `level` times: 2 to its power.
pub(crate) fn segment_count(level: u32) -> u32
    requires { level ≤ 9 }
    ensures value { result ≡ 2 ^ level }
    ensures few { result ≤ 512 }
{
    1 << level
}

// Each length cut into its first half, rounded down, and the rest.
fn halves(alloc: Global, lengths: &[u32]) -> Result<Vec<u32>, NoMemory>
    ensures { IfGiven result (λ v. v.items ≡ halved lengths.now) }
{
    let mut cut = Vec::new(alloc);
    for part in lengths {
        let first = *part / 2;
        cut.push(first)?;
        cut.push(*part - first)?;
    }
    Ok(cut)
}

/// The number of elements of each segment, in order.
pub(crate) fn segment_lengths(alloc: Global, level: u32, len: u32) -> Result<Vec<u32>, NoMemory>
    ensures { IfGiven result (λ v. v.items ≡ segment_lengths level len) }
{
    let mut lengths = vec![in alloc; len]?;
    for _done in 0..level {
        lengths = halves(alloc, &lengths)?;
    }
    Ok(lengths)
}
