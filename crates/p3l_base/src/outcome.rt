// Outcomes of items.

use crate::words::Words;

/// Why the run of a body ended early.
#[derive(Clone, Copy, Debug, Drop, PartialEq, Eq)]
pub enum TrapKind {
    /// A division or remainder by zero.
    DivZero,
    /// The least number divided by -1.
    DivOver,
    /// An index outside its array.
    Index,
    /// A shift outside 0 to 63.
    Shift,
    /// More turns of the body's loops than its budget.
    Budget,
    /// More turns of a `loop` module than its clause.
    Turns,
}

/// The first trap of an item, with the number of its module in the order of the source, from 0.
#[derive(Clone, Copy, Debug, Drop, PartialEq, Eq)]
pub struct Trap {
    pub kind: TrapKind,
    pub module: u32,
}

/// The outcome of an item: words, or the first trap.
#[derive(Debug, Drop)]
pub enum Outcome {
    Value(Words),
    Trapped(Trap),
}
