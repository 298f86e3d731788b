//! The C11 function of a checked body, as a text.
#![tactic(auto)]

pub mod bodies;
pub mod count;
pub mod expression;
pub mod function;
pub mod guard;
pub mod laws;
pub mod line;
pub mod names;
pub mod operator;
pub mod plain;
pub mod statement;
pub mod text;
pub mod value;
