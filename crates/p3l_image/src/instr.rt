// The kinds of instructions.

/// The kind of an instruction, without its operands.
#[derive(Clone, Copy, Debug, Drop, PartialEq, Eq)]
pub enum InstrKind {
    Push,
    Load,
    Store,
    Step,
    LoadAt,
    StoreAt,
    Unary,
    Binary,
    Jump,
    JumpZero,
    JumpNonZero,
    Turn,
    End,
}
