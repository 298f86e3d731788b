// Operators on numbers whose results are known from C99.

use p3l_ast::meaning::{binary, unary};
use p3l_ast::{BinOp, UnOp};
use p3l_base::TrapKind;
use std::test::Fail;

#[test]
fn operators_give_what_c_gives(rt: HostRuntime) -> Result<(), Fail> {
    let least = i64::MIN;
    let greatest = i64::MAX;
    let numbers = [
        (BinOp::Div, -7, 2, -3),
        (BinOp::Div, 7, -2, -3),
        (BinOp::Rem, -7, 2, -1),
        (BinOp::Rem, 7, -2, 1),
        (BinOp::Shr, -3, 1, -2),
        (BinOp::Shl, 1, 63, least),
        (BinOp::Shl, 3, 63, least),
        (BinOp::Add, greatest, 1, least),
        (BinOp::Sub, least, 1, greatest),
        (BinOp::Mul, greatest, 2, -2),
        (BinOp::BitAnd, -4, 6, 4),
        (BinOp::BitOr, -4, 2, -2),
        (BinOp::BitXor, -1, 5, -6),
        (BinOp::Lt, -1, 0, 1),
        (BinOp::Ge, -1, 0, 0),
        (BinOp::And, 2, 0, 0),
        (BinOp::Or, 0, -5, 1),
    ];
    for (op, left, right, result) in numbers {
        assert_eq!(rt;
            binary(op, left, right),
            Ok(result),
            "{op:?} {left} {right}"
        );
    }
    let traps = [
        (BinOp::Div, 1, 0, TrapKind::DivZero),
        (BinOp::Rem, least, 0, TrapKind::DivZero),
        (BinOp::Div, least, -1, TrapKind::DivOver),
        (BinOp::Rem, least, -1, TrapKind::DivOver),
        (BinOp::Shl, 1, 64, TrapKind::Shift),
        (BinOp::Shr, 1, -1, TrapKind::Shift),
    ];
    for (op, left, right, trap) in traps {
        assert_eq!(rt; binary(op, left, right), Err(trap), "{op:?} {left} {right}");
    }
    assert_eq!(rt; unary(UnOp::Neg, least), least);
    assert_eq!(rt; unary(UnOp::Not, 0), 1);
    assert_eq!(rt; unary(UnOp::Not, -7), 0);
    assert_eq!(rt; unary(UnOp::Flip, 5), -6);
    Ok(())
}
