//! The kind of a farm: workers that each take the next token as they have room for it.
#![tactic(auto)]

pub mod farm;
mod found;

pub use farm::FarmTemplate;
