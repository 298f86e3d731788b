//! The bytes of trees: modules, nodes with their forms, and the counts of workers.
#![tactic(auto)]

pub mod form;
pub mod module;
pub mod number;
pub mod rescue;
pub mod slice;
pub mod tree;
pub mod version;

pub use number::{BelowField, InField, IndicesField};
pub use tree::{COUNTS, TreeField};
pub use version::{Version, read_version, write_version};
