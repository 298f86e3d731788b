//! The words of a command line, read by `clap`, and the command that they spell.
#![tactic(auto)]

mod app;
pub mod command;
pub mod complaint;
pub mod laws;
mod matches;
pub mod table;
mod value;
pub mod word;
mod words;

pub use command::{Build, Command, Exported, OptsRefusal, Sched};
pub use complaint::complaint_on;
pub use laws::one_command_at_most;
pub use words::parse;
