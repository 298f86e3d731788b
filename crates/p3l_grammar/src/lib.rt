//! The grammar of source texts: what a text spells, and where it is first no beginning of a
//! program.
#![tactic(auto)]

pub mod mark;
pub mod nest;
