//! Messages for a person at a terminal: what a status means, with the place that it speaks of.
//!
//! They come after the line that the program answers with, and are made of the words of the command
//! line and of the files that the command has read; nothing is read again.
#![tactic(auto)]

mod arity;
mod costs;
mod expected;
pub mod failure;
mod heard;
pub mod kept;
pub mod message;
mod page;
pub mod place;
mod program;
pub mod safe;
pub mod screen;
mod usage;
mod wiring;

pub use failure::Failure;
pub use kept::KeptFiles;
pub use message::{Answer, message_on};
pub use place::Style;
pub use screen::Screen;
