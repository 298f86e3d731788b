//! Tests of images over their public calls: bytes that were worked out by hand, read, written and
//! loaded.
#![tactic(auto)]

#[cfg(test)]
mod forms;
#[cfg(test)]
mod loading;
#[cfg(test)]
mod old;
#[cfg(test)]
mod small;
#[cfg(test)]
mod snapshots;
