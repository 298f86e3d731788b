//! The objects of the outside: a source and sinks of bytes, and files, each with a count of its
//! faults.
#![tactic(auto)]

mod calls;
pub mod fault;
pub mod files;
pub mod mem_files;
pub mod mem_sink;
pub mod mem_source;
pub mod sink;
pub mod source;

pub use fault::{Failed, FileFault, WriteFault};
pub use files::Files;
pub use mem_files::MemFiles;
pub use mem_sink::{MemSink, PutFail};
pub use mem_source::MemSource;
pub use sink::Sink;
pub use source::Source;
