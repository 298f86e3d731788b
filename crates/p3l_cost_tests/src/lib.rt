//! Tests of trees, costs and certificates over the public calls of their crates: cuts, lawful trees
//! and counts, files of costs, the numbers of workers that are chosen by them, and certificates that
//! are refused one damage at a time.
#![tactic(auto)]

#[cfg(test)]
mod accepted;
#[cfg(test)]
mod choosing;
#[cfg(test)]
mod cuts;
#[cfg(test)]
mod damaged;
#[cfg(test)]
mod examples;
#[cfg(test)]
mod files;
#[cfg(test)]
mod lawful;
#[cfg(test)]
mod made;
#[cfg(test)]
mod making;
#[cfg(test)]
mod numbers;
#[cfg(test)]
mod pipe;
#[cfg(test)]
mod plain;
#[cfg(test)]
mod refused;
#[cfg(test)]
mod samples;
#[cfg(test)]
mod trees;
