//! Shapes of ports and arguments, and the constants that their sizes name.
#![tactic(auto)]

pub mod consts;
pub mod shape;

pub use consts::{Consts, natural, place_of, value_of};
pub use shape::{Shape, product, shape_of, sliced, words_of};
