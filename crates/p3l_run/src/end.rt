// The end of a run, and its numbers.

use p3l_base::{Name, TrapKind};
use p3l_stream::Ending;

/// The end of a run.
#[derive(Debug, Drop)]
pub enum RunEnd {
    /// The recorded picks ended while some process could fire.
    Stopped {
        fired: u64,
        idle: u64,
    },
    /// This item, counted from 1, came to a trap in the module of this name.
    Trapped {
        item: u64,
        kind: TrapKind,
        module: Name,
    },
    /// All items that the stream gave were run, and it ended so.
    Stream(Ending),
}

/// The numbers of a run.
#[derive(Clone, Copy, Debug, Drop, PartialEq, Eq)]
pub struct RunStats {
    /// The count of items that the source process has sent. A run that continues from a snapshot
    /// counts those of the runs before it too.
    pub items: u64,
    /// The count of firings.
    pub fired: u64,
    /// The count of picks that could not fire.
    pub idle: u64,
    /// The bound on the firings: the items, each with the firings that it can need.
    pub bound: u128,
}
