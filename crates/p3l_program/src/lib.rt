//! The program below `main`: from the words of the command line to the status, over any files and
//! streams.
#![tactic(auto)]

pub mod advise;
pub mod alike;
pub mod best;
mod cert;
pub mod certify;
pub mod check;
pub mod check_trace;
pub mod compile;
pub mod determined;
pub mod exec;
pub mod explain;
pub mod export;
mod file;
pub mod fmt;
pub mod generated;
pub mod graph;
pub mod headline;
mod image;
mod imaged;
pub mod joined;
mod memory;
pub mod migrate;
mod picks;
mod plan;
pub mod profile;
pub mod recheck;
mod record;
pub mod replay;
pub mod resume;
pub mod rewrite;
pub mod run;
mod running;
mod save;
pub mod save_state;
pub mod scan;
mod schedule;
mod snapshot;
mod source;
mod text;
pub mod time;
pub mod top;
pub mod unbroken;
mod verdict;
pub mod verify;
