//! Exported programs: one text in C of a program's tree, its network and its bodies, between the
//! two parts of an engine that runs them.
#![tactic(auto)]

mod capacity;
pub mod channels;
pub mod engine;
pub mod export;
pub mod file;
pub mod laws;
mod lines;
mod loads;
mod modules;
mod nodes;
mod processes;
mod rates;
mod slices;
pub mod tables;

pub use channels::ChannelRow;
pub use engine::{ENGINE, HEAD};
pub use export::export_program;
pub use file::export_text;
