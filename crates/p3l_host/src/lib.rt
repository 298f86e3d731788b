//! The real source, sinks and files: std's standard streams and file system. They report no content.
#![tactic(auto)]

pub mod after;
pub mod files;
pub mod gather;
pub mod input;
mod inputs;
pub mod output;
mod retry;
mod whole;

pub use after::{SinkAfter, SourceAfter};
pub use files::HostFiles;
pub use gather::Output;
pub use input::HostIn;
pub use output::{HostErr, HostOut};
