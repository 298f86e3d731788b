//! The plain program of an item: what a node makes of it, step by step by the definition.
#![tactic(auto)]

pub mod item;
mod leaves;

pub use item::item_outcome;
