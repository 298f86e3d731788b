//! Decides whether a state of a net is orderly, and which tokens are pending in it: by the tags
//! alone, for a whole tree, and for what was saved of a machine.
#![tactic(auto)]

pub mod laws;
pub mod root;
pub mod sound;
pub mod walk;

pub use root::is_orderly;
pub use sound::is_sound;
