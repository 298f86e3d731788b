//! Laws of linked nets from any state in which a run of one can be: what a resumed run emits, how
//! often it fires, and where it ends; how many words and tags their channels carry. Saved states of
//! machines that run them are sound, and can be restored, resumed and written; the state in which a
//! run continues from one is given. Each law is the contract of a function that does nothing.
#![tactic(auto)]

pub mod kept;
pub mod linked;
pub mod saved;
pub mod start;
pub mod widths;
