//! The verifier of code: it goes over a code once and says whether the code meets the rules of safe
//! code.
#![tactic(auto)]

pub mod instr;
pub mod known;
pub mod verifier;

pub use verifier::verify;
