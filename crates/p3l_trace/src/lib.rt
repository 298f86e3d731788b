//! Traces of runs: which process each pick took and what it did; their text, and how a line agrees with a machine.
#![tactic(auto)]

mod agreement;
mod kind;
pub mod line;
pub mod text;
pub mod trace;

pub use agreement::{agrees, is_counted};
pub use text::{read_trace, trace_text};
pub use trace::{TraceLine, TraceRefusal, Traced};
