//! Snapshots of runs as bytes: the state of a machine, and the image of its program.
#![tactic(auto)]

pub mod coding;
pub mod number;
pub mod ranges;
pub mod saved;
pub mod shot;
pub mod token;
pub mod words;

pub use coding::{read_shot, shot_text};
pub use ranges::have_ranges;
pub use saved::{Saved, ShotRefusal};
