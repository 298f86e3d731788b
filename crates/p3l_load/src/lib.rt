//! Images that may be run. Of those that were read only what is lawful, safe and linked is handed on
//! (`load`); one whose net is not that of its tree can be migrated, which relinks it (`migrate`).
//! The image of a program that keeps the rules is made here too (`image_text`), with the laws of all
//! of these: whatever can be run can be written, and is read and loaded again.
#![tactic(auto)]

mod codes;
pub mod compiled;
pub mod laws;
pub mod loaded;
pub mod loader;
pub mod migration;
mod operands;
mod rescues;
mod seal;

pub use compiled::{image_of, image_text};
pub use loaded::{LoadRefusal, Loaded};
pub use loader::load;
pub use migration::migrate;
pub use operands::have_operands;
pub use rescues::have_rescues;
