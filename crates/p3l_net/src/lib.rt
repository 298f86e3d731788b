//! The network machine: a net whose processes fire one at a time, with the set of those that are
//! ready.
#![tactic(auto)]

mod channel;
mod channels;
pub mod descriptor;
pub mod ends;
mod kinds;
pub mod laws;
mod local_state;
mod locals;
pub mod machine;
mod refresh;
mod ring;
mod store;
mod touched;

pub use machine::Machine;
pub use p3l_firing::{
    Chan, Fired, MOST_TAGS, Net, Own, Proc, ProcKind, SavedToken, Shot, Tags, Token, net, process,
    single, token, unit_net,
};
