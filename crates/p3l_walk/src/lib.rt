//! The walk of an item through a tree of skeletons, over any way to run the tree's leaves.
#![tactic(auto)]

pub mod leaves;
pub mod walk;

pub use leaves::Leaves;
pub use walk::item_outcome;
