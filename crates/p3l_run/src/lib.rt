//! Runs a network on a stream under a schedule: requests the items one by one, fires process after
//! process, and writes each value that comes out; keeps the lines of its trace, where that is
//! requested. Checks a trace against a network in the same way, and profiles a tree on a stream.
#![tactic(auto)]

pub mod checkpoint;
mod comparison;
pub mod end;
mod execution;
pub mod fault;
pub mod feed;
pub mod finish;
pub mod in_time;
pub mod keeping;
pub mod laws;
pub mod plan;
pub mod resume;
pub mod retrace;
pub mod run;
pub mod sampling;
mod sum;
pub mod write;

pub use checkpoint::{Checkpoint, CheckpointEnd, run_to_checkpoint};
pub use end::{RunEnd, RunStats};
pub use fault::RunFault;
pub use feed::INPUT_LIMIT;
pub use in_time::{TimedRan, run_in_time};
pub use keeping::Keeping;
pub use plan::Plan;
pub use run::Ran;
pub use sampling::{Sampled, sample};
