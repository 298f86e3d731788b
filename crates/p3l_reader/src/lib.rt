//! The reader of source texts: the program that a text spells, or its first fault.
#![tactic(auto)]

mod call;
mod expr;
mod list;
mod mark;
mod module;
mod port;
mod program;
mod refusal;
mod source;
mod stmt;

pub use source::read;
