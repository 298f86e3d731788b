// Programs.

use crate::module::Module;
use crate::position::{Pos, Spot};
use p3l_base::List;

/// An entry of a program.
#[derive(Drop)]
pub enum Entry {
    Constant(Spot, i64),
    Module(Module),
}

/// A program, in the order of its text.
#[derive(Drop)]
pub struct Program {
    pub entries: List<Entry>,
    /// The place after the last byte of the text.
    pub end: Pos,
}
