//! The best numbers of workers for a number of processors, by the cost model.
//!
//! A table holds, for each node of the tree and each number of processes, the soonest service time
//! that the node can have within them. It is made from the last node to the first, so that a node's
//! parts come before it. A walk down the tree then takes the first counts that reach the root's.
//!
//! One table serves each smaller number of processors too.
//!
//! A text explains the choice: the processors, the processes used and the service time in all, and
//! a line for each node outside units.
#![tactic(auto)]

pub mod allocation;
mod entry;
pub mod explanation;
mod need;
pub mod table;
mod walk;

pub use allocation::{AllocRefusal, Best, Choice, best_within, choose, choose_within};
pub use explanation::allocation_text;
pub use need::least_procs;
