//! The pages that teach: of the program, its commands, its statuses, its language and each number
//! of refusal; and which words request which.
#![tactic(auto)]

mod command;
mod fault;
pub mod flag;
pub mod handbook;
mod language;
pub mod page;
mod program;
pub mod table;

pub use handbook::Handbook;
pub use page::Page;
pub use table::all_pages;
