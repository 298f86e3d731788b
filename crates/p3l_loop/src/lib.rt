//! The template of a loop: a ring that tokens go round until its condition lets them out.
#![tactic(auto)]

mod found;
pub mod loops;

pub use loops::{LoopTemplate, goes_round_as_said};
