//! The template of a reduce: segments that are folded side by side, and a tree of joins.
#![tactic(auto)]

mod found;
mod matched;
pub mod reduce;
mod segments;
mod tree;
mod widths;

pub use reduce::{ReduceTemplate, joins_fold_the_whole, keeps_powers_of_two};
