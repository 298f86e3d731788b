//! The program over objects in memory, from the words to what is written, reported and answered.
//!
//! Transcripts of commands whose values come from outside, damaged evidence, files and calls that fail,
//! which of two answers comes first, and the programs of `examples/` under two schedules: `world` says
//! how a transcript is written. Nothing here reads that folder: `tools/examples_same.py` says whether
//! the texts are those of its files.
#![tactic(auto)]

#[cfg(test)]
mod bodies;
#[cfg(test)]
mod certificates;
#[cfg(test)]
mod checkpoints;
#[cfg(test)]
mod counts;
#[cfg(test)]
mod damage;
#[cfg(test)]
mod damaged_images;
#[cfg(test)]
mod examples;
#[cfg(test)]
mod exports;
#[cfg(test)]
mod files;
#[cfg(test)]
mod generating;
#[cfg(test)]
mod graphs;
#[cfg(test)]
mod images;
#[cfg(test)]
mod in_time;
#[cfg(test)]
mod limits;
#[cfg(test)]
mod migrations;
#[cfg(test)]
mod order_of_endings;
#[cfg(test)]
mod order_of_stages;
#[cfg(test)]
mod picks;
#[cfg(test)]
mod profiles;
#[cfg(test)]
mod reads;
#[cfg(test)]
mod refusals;
#[cfg(test)]
mod rescues;
#[cfg(test)]
mod rewrites;
#[cfg(test)]
mod scans;
#[cfg(test)]
mod skeletons;
#[cfg(test)]
mod spelled;
#[cfg(test)]
mod taking;
#[cfg(test)]
mod texts;
#[cfg(test)]
mod top;
#[cfg(test)]
mod traced;
#[cfg(test)]
mod traces;
#[cfg(test)]
mod world;
