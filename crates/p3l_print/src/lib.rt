//! The canonical text of a program: one text for all programs that differ in nothing but positions.
#![tactic(auto)]

mod call;
mod expression;
mod module;
mod port;
mod printer;
mod program;
mod statement;

pub use program::print;
pub use statement::print_statements;
