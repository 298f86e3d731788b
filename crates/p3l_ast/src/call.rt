// Calls of modules.

use crate::port::Port;
use crate::position::Spot;
use p3l_base::List;

/// The content of one pair of brackets of an argument: nothing for a whole dimension, or `*` and
/// the name of a free index.
#[derive(Debug, Drop)]
pub enum Sub {
    Whole,
    Free(Spot),
}

/// An argument of a call; a plain name has no brackets.
#[derive(Debug, Drop)]
pub struct Arg {
    pub at: Spot,
    pub subs: List<Sub>,
}

/// An out argument of a call: a port that it declares, or one that is there.
#[derive(Debug, Drop)]
pub enum OutArg {
    Fresh(Port),
    Old(Arg),
}

/// A call of a module by its name.
#[derive(Debug, Drop)]
pub struct Call {
    pub at: Spot,
    pub ins: List<Arg>,
    pub outs: List<OutArg>,
}
