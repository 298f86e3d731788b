//! The rules of `seq` modules, and their checked form.
#![tactic(auto)]

pub mod checked;
pub mod mention;
pub mod ports;
pub mod scope;
pub mod var;

pub use checked::{CheckedSeq, check_body};
pub use ports::{Ports, budget_of, limited, ports_of, rescue_of};
pub use scope::{Known, Variables, declare, declare_one, enter};
pub use var::Var;
