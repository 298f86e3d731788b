//! Tests of code: what the verifier takes, what the machine makes of words, and bodies of texts that
//! are compiled and run.
#![tactic(auto)]

#[cfg(test)]
mod bodies;
#[cfg(test)]
mod codes;
#[cfg(test)]
mod operations;
#[cfg(test)]
mod operators;
#[cfg(test)]
mod profiles;
#[cfg(test)]
mod rules;
#[cfg(test)]
mod units;
