//! The kind of a map: workers that take the elements of each token by turns.
#![tactic(auto)]

mod found;
pub mod map;

pub use map::MapTemplate;
