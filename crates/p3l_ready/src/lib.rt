//! Sets of small numbers, searched in turn.
#![tactic(auto)]

mod ready;

pub use ready::ReadySet;
