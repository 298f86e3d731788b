// Traces, and why a text is none.

ghost use Rattle.std.specs.Prelude.{◌≡◌};
ghost use Rattle.p3l_trace.specs.declared.trace.TraceRefusal.TheVariants as refusals;

use p3l_base::List;
use p3l_firing::ProcKind;

/// A pick: the process that was picked, and the kind of what it fired as, or none for an idle pick.
#[derive(Clone, Copy, Debug, Drop, PartialEq, Eq)]
pub struct TraceLine {
    pub pick: u32,
    pub kind: Option<ProcKind>,
}

/// The picks of a run in order, and how many of them fired and were idle.
#[derive(Debug, Drop)]
pub struct Traced {
    pub lines: List<TraceLine>,
    pub fired: u64,
    pub idle: u64,
}

/// Why a text is no trace.
#[derive(Clone, Copy, Debug, Drop, PartialEq, Eq)]
pub enum TraceRefusal {
    /// The first line that isn't of its form, from 1, or one more than there are lines.
    BadLine { line: u64 },
    NoMemory,
}

impl From<p3l_base::NoMemory> for TraceRefusal {
    ghost from_gives = { λ _ refusal. refusal ≡ refusals.NoMemory };

    fn from(_want: p3l_base::NoMemory) -> TraceRefusal {
        TraceRefusal::NoMemory
    }
}
