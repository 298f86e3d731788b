//! Tests of the language over the public calls of its crates: tokens, first faults, canonical texts,
//! the meaning of operators and bodies, and the rules of programs.
#![tactic(auto)]

#[cfg(test)]
mod bodies;
#[cfg(test)]
mod calls;
#[cfg(test)]
mod checked_bodies;
#[cfg(test)]
mod everything;
#[cfg(test)]
mod lexing;
#[cfg(test)]
mod operators;
#[cfg(test)]
mod printing;
#[cfg(test)]
mod programs;
#[cfg(test)]
mod reading;
#[cfg(test)]
mod shapes;
