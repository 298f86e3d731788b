//! The picture of a network, as a text in the DOT language of Graphviz: a box for each process, an
//! arrow for each channel, and a frame round the processes of each skeleton. The processes of each
//! node, as a table.
#![tactic(auto)]

mod boxes;
mod frames;
pub mod graph;
pub mod processes;

pub use graph::graph_text;
pub use processes::processes_text;
