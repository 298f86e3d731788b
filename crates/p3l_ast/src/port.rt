// Ports, and the numbers in their sizes.

use crate::position::{Pos, Spot};
use p3l_base::List;

/// A number of a size or a clause: digits, or the name of a constant. It is never negative.
#[derive(Debug, Drop)]
pub enum Num {
    Digits(i64, Pos),
    Named(Spot),
}

/// A port or a local variable with its sizes, the outermost first; a scalar has none.
#[derive(Debug, Drop)]
pub struct Port {
    pub at: Spot,
    pub sizes: List<Num>,
}
