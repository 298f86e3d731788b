//! The numbers of a tree with its counts: how many processes it has, and how often they fire.
#![tactic(auto)]

mod cost;
pub mod firing;
pub mod outside;
pub mod process;
mod service_time;
pub mod ticks;
pub mod workers;

pub use cost::{FoldCost, NEVER, NodeCost, Sharing, Span, node_cost};
pub use firing::firings;
pub use outside::is_outside;
pub use process::procs;
pub use service_time::service;
