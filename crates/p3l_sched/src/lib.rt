//! Schedules: which process is picked next, and picks in a text.
#![tactic(auto)]

pub mod laws;
pub mod picker;
pub mod picks;
mod recording;
pub mod refusal;
pub mod schedule;
mod word;

pub use picker::Picker;
pub use picks::read_picks;
pub use refusal::PickRefusal;
pub use schedule::Schedule;
