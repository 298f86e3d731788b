//! Advice on the number of processors, by the cost model.
//!
//! One table of soonest service times, as `p3l_alloc` makes it, answers for each number of
//! processors up to a given one. The text has a line for each number at which the best service time
//! falls, then the tree with the counts that are chosen, the node that is the bottleneck marked, and
//! then the changes that would help.
#![tactic(auto)]

pub mod advice;
mod bottleneck;
mod falls;
mod help;
mod lines;

pub use advice::advice_text;
