//! Nets of processes and channels, their states, and the firings that lead from state to state: the definitions, and the laws
//! of all runs.
#![tactic(auto)]

pub mod copies;
pub mod cut;
pub mod laws;
pub mod net;
pub mod process;
pub mod shot;
pub mod single;
mod tags;
pub mod token;

pub use net::{Chan, Net};
pub use process::{Proc, ProcKind};
pub use shot::{Own, SavedToken, Shot};
pub use single::unit_net;
pub use tags::{MOST_TAGS, Tags};
pub use token::{Fired, Token};
