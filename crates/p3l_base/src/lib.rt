//! Basics of every layer: lists, words, names, outcomes of items, and out of memory.
#![tactic(auto)]

pub mod cut;
pub mod laws;
pub mod limits;
pub mod list;
pub mod name;
pub mod outcome;
pub mod slice;
pub mod words;

pub use cut::{Cut, cut_len, join};
pub use list::List;
pub use name::Name;
pub use outcome::{Outcome, Trap, TrapKind};
pub use p3l_refusal::NoMemory;
pub use slice::{Dim, Place, Slice, array_len, cut_at};
pub use words::Words;
