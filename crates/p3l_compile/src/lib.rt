//! From bodies to code: a checked body is compiled to safe code that does what the body means.
#![tactic(auto)]

pub mod body;
pub mod emit;
pub mod scope;
pub mod statement;
pub mod units;

pub use body::compile;
pub use units::{codes_of, leaves_are_evals, table_of, units_of};
