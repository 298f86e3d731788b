//! The work of the bodies of a program on items, and the turns of its loops: the numbers of the cost
//! model, measured.
#![tactic(auto)]

pub mod bodies;
pub mod highs;
pub mod laws;
mod leaves;
pub mod profile;
mod text;

pub use profile::Profile;
