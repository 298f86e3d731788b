//! Virtual time: what a firing of each process costs, when each process is due, and a timer that
//! says which process of a machine fires next. Due moments are kept as a tree, so that a change and
//! the question for the first cost as many steps as the tree has levels.
#![tactic(auto)]

mod greatest;
pub mod laws;
mod look;
mod moments;
pub mod price;
pub mod timer;

pub use moments::Moments;
pub use timer::Timer;
