//! The answers of the program: how a command ended, with which status, and the lines that say so.
#![tactic(auto)]

pub mod costs;
pub mod evidence;
pub mod line;
pub mod report;
pub mod scan;
pub mod schedule;
pub mod stats;
pub mod trap;
pub mod verdict;

pub use evidence::Evidence;
pub use report::{put_no_memory, put_report, report_of};
pub use stats::Stats;
pub use verdict::{Finish, Refusal, Status, Verdict};
