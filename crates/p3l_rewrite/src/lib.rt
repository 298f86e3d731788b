//! Programs rewritten for a lesser service time, as copies: the sequential stages of `main`, where it
//! is a pipe, each in a farm, or all of them in one process, with `main` a farm of it.
#![tactic(auto)]

pub mod body;
pub mod call;
pub mod candidate;
pub mod copied;
pub mod farm;
pub mod laws;
pub mod module;
pub mod place;
pub mod port;
pub mod program;
pub mod rewriting;
pub mod serving;

pub use copied::{Copied, copies};
pub use rewriting::{Rewritten, rewrite};
