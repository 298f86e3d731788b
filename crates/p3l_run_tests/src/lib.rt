//! Tests of runs of a network over the public calls: each schedule, item by item, the lines of
//! their traces, and each fault of the outside.
#![tactic(auto)]

#[cfg(test)]
mod feeding;
#[cfg(test)]
mod network;
#[cfg(test)]
mod running;
#[cfg(test)]
mod tracing;
