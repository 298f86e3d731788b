//! Tests of what the program is handed from outside, over the public calls: the words of the
//! command line, sources, sinks and files, and the stream.
#![tactic(auto)]

#[cfg(test)]
mod calls;
#[cfg(test)]
mod help;
#[cfg(test)]
mod host;
#[cfg(test)]
mod lists;
#[cfg(test)]
mod memory;
#[cfg(test)]
mod picks;
#[cfg(test)]
mod stream;
#[cfg(test)]
mod words;
