//! Tests that a snapshot of a machine fits a linked net: the words and tags of each channel, the
//! places of the loops, and what the processes keep.
#![tactic(auto)]

pub mod channels;
pub mod fitting;
pub mod laws;
pub mod loops;
pub mod numbers;
pub mod owns;
pub mod survey;
pub mod tokens;
pub mod walk;

pub use fitting::is_fitting;
pub use survey::{LoopPlace, Survey};
pub use walk::surveyed;
