//! The tree of a program's skeletons, the counts of its workers, and the meaning of one item.
#![tactic(auto)]

mod agree;
pub mod counts;
mod cut;
pub mod element;
pub mod lawful;
pub mod laws;
pub mod outcome;
pub mod shape;
pub mod tree;
pub mod units;
pub mod work;

pub use counts::lawful_counts;
pub use lawful::lawful_tree;
pub use tree::{Counts, Form, ModuleInfo, ModuleKind, Node, Tree};
pub use units::Units;
