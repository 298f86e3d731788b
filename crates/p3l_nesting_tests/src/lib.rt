//! Tests of whole linked networks: each skeleton alone and inside each other one, under each
//! schedule, against the plain program.
#![tactic(auto)]

#[cfg(test)]
mod alone;
#[cfg(test)]
mod bodies;
#[cfg(test)]
mod building;
#[cfg(test)]
mod comparing;
#[cfg(test)]
mod comps;
#[cfg(test)]
mod deep;
#[cfg(test)]
mod farms;
#[cfg(test)]
mod items;
#[cfg(test)]
mod limits;
#[cfg(test)]
mod loops;
#[cfg(test)]
mod maps;
#[cfg(test)]
mod pipes;
#[cfg(test)]
mod reduces;
#[cfg(test)]
mod refused;
#[cfg(test)]
mod rescues;
#[cfg(test)]
mod running;
#[cfg(test)]
mod saved;
#[cfg(test)]
mod serving;
#[cfg(test)]
mod sketch;
