//! Images: compiled programs as bytes.
#![tactic(auto)]

pub mod code;
pub mod coding;
pub mod image;
pub mod instr;
pub mod net;

pub use coding::{decode, encode};
pub use image::{Image, ImageRefusal};
