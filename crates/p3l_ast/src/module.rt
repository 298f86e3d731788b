// Modules.

use crate::call::Call;
use crate::port::{Num, Port};
use crate::position::Spot;
use crate::statement::Block;
use p3l_base::List;

/// The skeleton of a module.
#[derive(Clone, Copy, Debug, Drop, PartialEq, Eq)]
pub enum Kind {
    Seq,
    Comp,
    Pipe,
    Farm,
    Map,
    Reduce,
    Loop,
}

/// The number that stands for a trap within a module: a number, or its negative after a minus.
#[derive(Debug, Drop)]
pub struct Rescue {
    pub minus: bool,
    pub num: Num,
}

/// The clauses that a module's head gives; each kind has its own.
#[derive(Debug, Drop)]
pub struct Clauses {
    pub workers: Option<Num>,
    pub turns: Option<Num>,
    pub tokens: Option<Num>,
    pub budget: Option<Num>,
    pub rescue: Option<Rescue>,
}

/// The inside of a module, between its head and its end.
#[derive(Drop)]
pub enum Inside {
    /// The body of a `seq`.
    Body(Block),
    /// The calls of a `comp` or a `pipe`, or the one call of a `farm`, a `map` or a `reduce`.
    Calls(List<Call>),
    /// The body and the condition of a `loop`.
    Turning(Call, Call),
}

/// A module.
#[derive(Drop)]
pub struct Module {
    pub kind: Kind,
    pub at: Spot,
    pub ins: List<Port>,
    pub outs: List<Port>,
    pub clauses: Clauses,
    pub inside: Inside,
}
