// The words of kinds.

ghost use Rattle.std.specs.Prelude.{◌≡◌, ◌++◌};
ghost use Rattle.p3l_base.specs.Memory.{OnGiven};
ghost use Rattle.p3l_format.specs.Format.{Gives};
ghost use Rattle.p3l_trace.specs.Kind.{all_said, first_said, said_format, word_of};

use p3l_base::NoMemory;
use p3l_firing::ProcKind;
use p3l_format::{Cause, ReadError, fault_of, strip};

// All that can be said of a pick.
const SAID: [Option<ProcKind>; 13] = [
    Some(ProcKind::Source),
    Some(ProcKind::Sink),
    Some(ProcKind::Run),
    Some(ProcKind::Emit),
    Some(ProcKind::Collect),
    Some(ProcKind::Scatter),
    Some(ProcKind::Gather),
    Some(ProcKind::Split),
    Some(ProcKind::FoldGather),
    Some(ProcKind::Join),
    Some(ProcKind::Head),
    Some(ProcKind::Tail),
    None,
];

/// The word of a kind, or that of an idle pick.
fn word_of(said: Option<ProcKind>) -> &'static [u8]
    ensures { result.now ≡ word_of said }
{
    let Some(kind) = said else {
        return b"idle";
    };
    match kind {
        ProcKind::Source => b"source",
        ProcKind::Sink => b"sink",
        ProcKind::Run => b"run",
        ProcKind::Emit => b"emit",
        ProcKind::Collect => b"collect",
        ProcKind::Scatter => b"scatter",
        ProcKind::Gather => b"gather",
        ProcKind::Split => b"split",
        ProcKind::FoldGather => b"fold-gather",
        ProcKind::Join => b"join",
        ProcKind::Head => b"head",
        ProcKind::Tail => b"tail",
    }
}

// The first of these whose word is in front, and what is after it.
fn read_first<'a>(
    all: &[Option<ProcKind>],
    bytes: &'a [u8],
) -> Result<(Option<ProcKind>, &'a [u8]), ReadError>
    ensures { Gives (λ x. (x.0, x.1.now)) result (first_said all.now bytes.now) }
{
    for said in all {
        if let Some(rest) = strip(word_of(*said), bytes) {
            return Ok((*said, rest));
        }
    }
    Err(fault_of(Cause::Range, bytes))
}

/// The word of a pick in front, and the bytes after it.
#[tactic(auto, unfolding(crate::specs::Kind::said_format))]
pub(crate) fn read_said(bytes: &[u8]) -> Result<(Option<ProcKind>, &[u8]), ReadError>
    ensures { Gives (λ x. (x.0, x.1.now)) result (said_format.read bytes.now) }
{
    read_first(&SAID, bytes)
}

/// Puts a word after others.
#[tactic(auto, unfolding(crate::specs::Kind::said_format))]
pub(crate) fn write_said(said: Option<ProcKind>, out: &mut Vec<u8>) -> Result<(), NoMemory>
    ensures { OnGiven result (out.new.items ≡ out.old.items ++ said_format.spell said) }
{
    out.extend_from_slice(word_of(said))?;
    Ok(())
}
