//! The code of bodies: instructions of a stack machine, the machine, and code that is safe.
#![tactic(auto)]

pub mod instr;
pub mod run;
pub mod safe;
pub mod stack;

pub use instr::{Code, Instr};
pub use run::{Counted, run_code, run_counted};
pub use safe::SafeCode;
