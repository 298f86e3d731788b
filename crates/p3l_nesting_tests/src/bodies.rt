// The bodies of `seq` modules. Each is known by what it traps on, keeps odd words odd, and
// depends on the order of its words.

use p3l_ast::BinOp;
use p3l_base::{List, NoMemory};
use p3l_code::{Code, Instr};
use std::alloc::Global;

/// A body: what it gives of its words, with `a = 2 / x`, which traps where `x` is 0, and
/// `b = 2 << (64 * (w == 2))`, which traps where its last word `w` is 2.
#[derive(Clone, Copy, Drop)]
pub enum Body {
    /// Of a word `x`: `9 * x + 4 - a - b`.
    One,
    /// Of words `x` and `y`: `y - a` and `3 * x - b`.
    Two,
    /// Of words `x` and `y`: `x - 2 * y - a - b`, which depends on how words are grouped.
    Join,
    /// Of words `x` and `y`: a number that is 0 where bit 2 of `x` is; it has `a` and no `b`.
    Test,
}

/// Takes off `2 / x`, with `x` at 0.
const LESS_A: &[Instr] = &[
    Instr::Push(2),
    Instr::Load(0),
    Instr::Binary(BinOp::Div),
    Instr::Binary(BinOp::Sub),
];

/// Takes off `b`, after `2` and the last word.
const LESS_B: &[Instr] = &[
    Instr::Push(2),
    Instr::Binary(BinOp::Eq),
    Instr::Push(6),
    Instr::Binary(BinOp::Shl),
    Instr::Binary(BinOp::Shl),
    Instr::Binary(BinOp::Sub),
];

const ONE: &[&[Instr]] = &[
    &[Instr::Load(0), Instr::Push(9), Instr::Binary(BinOp::Mul)],
    &[Instr::Push(4), Instr::Binary(BinOp::Add)],
    LESS_A,
    &[Instr::Push(2), Instr::Load(0)],
    LESS_B,
    &[Instr::Store(1)],
];

const TWO: &[&[Instr]] = &[
    &[Instr::Load(1)],
    LESS_A,
    &[Instr::Store(2)],
    &[Instr::Load(0), Instr::Push(3), Instr::Binary(BinOp::Mul)],
    &[Instr::Push(2), Instr::Load(1)],
    LESS_B,
    &[Instr::Store(3)],
];

const JOIN: &[&[Instr]] = &[
    &[Instr::Load(0), Instr::Push(2), Instr::Load(1)],
    &[Instr::Binary(BinOp::Mul), Instr::Binary(BinOp::Sub)],
    LESS_A,
    &[Instr::Push(2), Instr::Load(1)],
    LESS_B,
    &[Instr::Store(2)],
];

const TEST: &[&[Instr]] = &[
    &[Instr::Push(2), Instr::Load(0), Instr::Binary(BinOp::Div)],
    &[Instr::Push(0), Instr::Binary(BinOp::Mul)],
    &[Instr::Load(0), Instr::Push(4)],
    &[Instr::Binary(BinOp::BitAnd), Instr::Binary(BinOp::Add)],
    &[Instr::Store(2)],
];

// The code of these instructions, with the numbers of words that it takes and gives.
fn code(alloc: Global, ins: u32, outs: u32, pieces: &[&[Instr]]) -> Result<Code, NoMemory> {
    let mut instrs = List::new(alloc);
    for piece in pieces {
        for instr in *piece {
            instrs.push(*instr)?;
        }
    }
    instrs.push(Instr::End)?;
    Ok(Code {
        budget: 1,
        ins,
        outs,
        memory: ins.wrapping_add(outs),
        instrs,
    })
}

/// The code of a body.
pub fn code_of(alloc: Global, body: Body) -> Result<Code, NoMemory> {
    match body {
        Body::One => code(alloc, 1, 1, ONE),
        Body::Two => code(alloc, 2, 2, TWO),
        Body::Join => code(alloc, 2, 1, JOIN),
        Body::Test => code(alloc, 2, 1, TEST),
    }
}
