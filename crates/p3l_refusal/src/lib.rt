//! Out of memory.
#![tactic(auto)]

pub mod memory;

pub use memory::{NoMemory, parted};
