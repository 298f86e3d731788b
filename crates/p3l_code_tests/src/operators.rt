// Every operator at its edges. The values are those of C99 on 64-bit whole numbers that wrap, worked
// out by another program.

use crate::codes::{code, is_outcome, outcome};
use p3l_ast::{BinOp, UnOp};
use p3l_base::TrapKind;
use p3l_code::Instr;
use std::test::*;

const BINARY: [(BinOp, i64, i64, Result<i64, TrapKind>); 62] = [
    (BinOp::Add, i64::MAX, 1, Ok(i64::MIN)),
    (BinOp::Add, i64::MIN, -1, Ok(i64::MAX)),
    (BinOp::Add, i64::MIN, i64::MIN, Ok(0)),
    (BinOp::Add, -5, 3, Ok(-2)),
    (BinOp::Sub, i64::MIN, 1, Ok(i64::MAX)),
    (BinOp::Sub, i64::MAX, -1, Ok(i64::MIN)),
    (BinOp::Sub, 0, i64::MIN, Ok(i64::MIN)),
    (BinOp::Sub, 3, 5, Ok(-2)),
    (BinOp::Mul, i64::MAX, 2, Ok(-2)),
    (BinOp::Mul, i64::MIN, -1, Ok(i64::MIN)),
    (BinOp::Mul, i64::MIN, i64::MIN, Ok(0)),
    (BinOp::Mul, -7, 6, Ok(-42)),
    (BinOp::Mul, 4294967296, 4294967296, Ok(0)),
    (BinOp::Div, 7, 2, Ok(3)),
    (BinOp::Div, -7, 2, Ok(-3)),
    (BinOp::Div, 7, -2, Ok(-3)),
    (BinOp::Div, -7, -2, Ok(3)),
    (BinOp::Div, i64::MIN, 1, Ok(i64::MIN)),
    (BinOp::Div, i64::MAX, -1, Ok(-9223372036854775807)),
    (BinOp::Div, 1, 0, Err(TrapKind::DivZero)),
    (BinOp::Div, i64::MIN, -1, Err(TrapKind::DivOver)),
    (BinOp::Rem, 7, 2, Ok(1)),
    (BinOp::Rem, -7, 2, Ok(-1)),
    (BinOp::Rem, 7, -2, Ok(1)),
    (BinOp::Rem, -7, -2, Ok(-1)),
    (BinOp::Rem, i64::MIN, i64::MAX, Ok(-1)),
    (BinOp::Rem, 5, 0, Err(TrapKind::DivZero)),
    (BinOp::Rem, i64::MIN, -1, Err(TrapKind::DivOver)),
    (BinOp::Shl, 1, 63, Ok(i64::MIN)),
    (BinOp::Shl, 1, 0, Ok(1)),
    (BinOp::Shl, 3, 63, Ok(i64::MIN)),
    (BinOp::Shl, -1, 1, Ok(-2)),
    (BinOp::Shl, 1, 64, Err(TrapKind::Shift)),
    (BinOp::Shl, 1, -1, Err(TrapKind::Shift)),
    (BinOp::Shr, i64::MIN, 63, Ok(-1)),
    (BinOp::Shr, -1, 63, Ok(-1)),
    (BinOp::Shr, i64::MAX, 62, Ok(1)),
    (BinOp::Shr, -5, 1, Ok(-3)),
    (BinOp::Shr, 1, 64, Err(TrapKind::Shift)),
    (BinOp::Shr, 1, -1, Err(TrapKind::Shift)),
    (BinOp::BitAnd, -1, i64::MAX, Ok(i64::MAX)),
    (BinOp::BitAnd, 12, 10, Ok(8)),
    (BinOp::BitOr, i64::MIN, 1, Ok(-9223372036854775807)),
    (BinOp::BitOr, 12, 10, Ok(14)),
    (BinOp::BitXor, -1, i64::MAX, Ok(i64::MIN)),
    (BinOp::BitXor, 12, 10, Ok(6)),
    (BinOp::Eq, i64::MIN, i64::MIN, Ok(1)),
    (BinOp::Eq, 0, 1, Ok(0)),
    (BinOp::Ne, i64::MIN, i64::MAX, Ok(1)),
    (BinOp::Ne, 7, 7, Ok(0)),
    (BinOp::Lt, i64::MIN, i64::MAX, Ok(1)),
    (BinOp::Lt, 3, 3, Ok(0)),
    (BinOp::Le, 3, 3, Ok(1)),
    (BinOp::Le, i64::MAX, i64::MIN, Ok(0)),
    (BinOp::Gt, i64::MAX, i64::MIN, Ok(1)),
    (BinOp::Gt, 3, 3, Ok(0)),
    (BinOp::Ge, 3, 3, Ok(1)),
    (BinOp::Ge, i64::MIN, i64::MAX, Ok(0)),
    (BinOp::And, 5, -3, Ok(1)),
    (BinOp::And, 5, 0, Ok(0)),
    (BinOp::Or, 0, -3, Ok(1)),
    (BinOp::Or, 0, 0, Ok(0)),
];

const UNARY: [(UnOp, i64, i64); 8] = [
    (UnOp::Neg, 5, -5),
    (UnOp::Neg, i64::MIN, i64::MIN),
    (UnOp::Neg, i64::MAX, -9223372036854775807),
    (UnOp::Not, 0, 1),
    (UnOp::Not, i64::MIN, 0),
    (UnOp::Flip, 0, -1),
    (UnOp::Flip, i64::MIN, i64::MAX),
    (UnOp::Flip, 5, -6),
];

#[test]
fn operators_at_their_edges(rt: HostRuntime) -> Result<(), Fail> {
    for (op, left, right, expected) in BINARY {
        let instrs = [
            Instr::Load(0),
            Instr::Load(1),
            Instr::Binary(op),
            Instr::Store(2),
            Instr::End,
        ];
        let safe = code(rt.alloc(), 1, 2, 1, 3, &instrs)?;
        let given = outcome(rt.alloc(), safe, &[left, right])?;
        let is = match expected {
            Ok(word) => is_outcome(&given, Ok(&[word])),
            Err(kind) => is_outcome(&given, Err(kind)),
        };
        assert!(rt; is, "{op:?} of {left} and {right}");
    }
    for (op, operand, expected) in UNARY {
        let instrs = [
            Instr::Load(0),
            Instr::Unary(op),
            Instr::Store(1),
            Instr::End,
        ];
        let safe = code(rt.alloc(), 1, 1, 1, 2, &instrs)?;
        let given = outcome(rt.alloc(), safe, &[operand])?;
        assert!(rt; is_outcome(&given, Ok(&[expected])), "{op:?} of {operand}");
    }
    Ok(())
}

/// Reads element (i, j) of an array of 3 by 2, and an element of it by its number.
#[test]
fn indices_at_both_ends(rt: HostRuntime) -> Result<(), Fail> {
    let instrs = [
        Instr::Push(0),
        Instr::Load(0),
        Instr::Step(3),
        Instr::Load(1),
        Instr::Step(2),
        Instr::LoadAt(2, 6),
        Instr::Store(8),
        Instr::End,
    ];
    let cases: [(i64, i64, Result<i64, TrapKind>); 7] = [
        (0, 0, Ok(10)),
        (0, 1, Ok(11)),
        (2, 1, Ok(15)),
        (3, 0, Err(TrapKind::Index)),
        (-1, 0, Err(TrapKind::Index)),
        (0, 2, Err(TrapKind::Index)),
        (2, i64::MIN, Err(TrapKind::Index)),
    ];
    for (i, j, expected) in cases {
        let safe = code(rt.alloc(), 1, 8, 1, 9, &instrs)?;
        let given = outcome(rt.alloc(), safe, &[i, j, 10, 11, 12, 13, 14, 15])?;
        let is = match expected {
            Ok(word) => is_outcome(&given, Ok(&[word])),
            Err(kind) => is_outcome(&given, Err(kind)),
        };
        assert!(rt; is, "element {i}, {j}");
    }
    Ok(())
}
