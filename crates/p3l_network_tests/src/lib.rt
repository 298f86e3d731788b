//! Tests of networks over the public calls of their crates: the pieces of the plain program, the
//! machine against it, the kinds of processes by hand; nets that were worked out by hand, and the
//! largest; the text of traces both ways, each damage, and lines against a machine.
#![tactic(auto)]

#[cfg(test)]
mod agreement;
#[cfg(test)]
mod copies;
#[cfg(test)]
mod damaged;
#[cfg(test)]
mod expected;
#[cfg(test)]
mod kinds;
#[cfg(test)]
mod limits;
#[cfg(test)]
mod looped;
#[cfg(test)]
mod maps;
#[cfg(test)]
mod nested;
#[cfg(test)]
mod pieces;
#[cfg(test)]
mod restored;
#[cfg(test)]
mod running;
#[cfg(test)]
mod scans;
#[cfg(test)]
mod skeletons;
#[cfg(test)]
mod stepping;
#[cfg(test)]
mod texts;
#[cfg(test)]
mod with_part;
