//! The generator: a program with its costs and a stream of items, by one number.
#![tactic(auto)]

pub mod texts;

pub use texts::{Generated, generate};
