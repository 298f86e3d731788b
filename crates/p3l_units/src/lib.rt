//! The nodes of a tree that run in one process, on the codes of its `seq` modules.
#![tactic(auto)]

pub mod leaves;
pub mod table;
pub mod units;

pub use table::UnitTable;
