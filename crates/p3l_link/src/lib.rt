//! The linker: the net of a tree under its counts, whether a net is that one, and the laws of all
//! its runs.
#![tactic(auto)]

mod compare;
pub mod examples;
pub mod laws;
pub mod linker;
pub mod node;
mod place;
pub mod table;

pub use linker::{is_linked, link};
pub use node::NodeTemplate;
pub use table::{part_of, template_of};
