// The numbers of a run.

use p3l_run::RunStats;

/// The numbers of a run, as they are reported.
#[derive(Clone, Copy, Drop)]
pub enum Stats {
    /// Of a run under a schedule.
    Scheduled(RunStats),
    /// Of a run in virtual time.
    Timed {
        /// The number of items that the source process has sent.
        items: u64,
        /// The number of firings.
        fired: u64,
        /// The moment of the last firing, in ticks.
        finish: u128,
        /// The process that was busy longest, the lowest of equals.
        busiest: u32,
        /// The time that it was busy, in ticks.
        busy: u128,
    },
    /// Of a run whose state was saved.
    Saved {
        /// The number of items that the network was offered.
        items: u64,
        /// The number of picks used.
        picks: u64,
    },
}
