// Results of operators.

ghost use Rattle.std.specs.Prelude.{◌≡◌, int_div, int_rem};
ghost use Rattle.std.specs.Int.{w64, int_shl, int_shr};
ghost use Rattle.p3l_ast.specs.Meaning.Operator.{truth, unary_of, shifted, divided, binary_of};

use crate::expression::{BinOp, UnOp};
use p3l_base::TrapKind;

/// A truth as a number: 1 or 0.
fn number(it_holds: bool) -> i64
    ensures { result ≡ truth it_holds }
{
    if it_holds { 1 } else { 0 }
}

/// Applies an operator that stands before its operand.
pub fn unary(op: UnOp, value: i64) -> i64
    ensures { result ≡ unary_of op value }
{
    match op {
        UnOp::Neg => value.wrapping_neg(),
        UnOp::Not => number(value == 0),
        UnOp::Flip => !value,
    }
}

/// The quotient, rounded toward zero.
fn quotient(left: i64, right: i64) -> Result<i64, TrapKind>
    ensures { result ≡ divided left right (int_div left right) }
{
    if right == 0 {
        return Err(TrapKind::DivZero);
    }
    if left == i64::MIN && right == -1 {
        return Err(TrapKind::DivOver);
    }
    Ok(left / right)
}

/// The remainder, which has the sign of the dividend.
fn remainder(left: i64, right: i64) -> Result<i64, TrapKind>
    ensures { result ≡ divided left right (int_rem left right) }
{
    if right == 0 {
        return Err(TrapKind::DivZero);
    }
    if left == i64::MIN && right == -1 {
        return Err(TrapKind::DivOver);
    }
    Ok(left % right)
}

/// The bits moved up; those past the highest are dropped.
fn shift_left(value: i64, places: i64) -> Result<i64, TrapKind>
    ensures { result ≡ shifted places (int_shl w64 value) }
{
    if places < 0 || places > 63 {
        return Err(TrapKind::Shift);
    }
    Ok(value << places)
}

/// The bits moved down; the sign stays.
fn shift_right(value: i64, places: i64) -> Result<i64, TrapKind>
    ensures { result ≡ shifted places (int_shr value) }
{
    if places < 0 || places > 63 {
        return Err(TrapKind::Shift);
    }
    Ok(value >> places)
}

/// Applies an operator that stands between its operands; may trap. Both operands are numbers here:
/// the caller decides if `&&` or `||` skips the right one.
pub fn binary(op: BinOp, left: i64, right: i64) -> Result<i64, TrapKind>
    ensures { result ≡ binary_of op left right }
{
    match op {
        BinOp::Or => Ok(number(left != 0 || right != 0)),
        BinOp::And => Ok(number(left != 0 && right != 0)),
        BinOp::BitOr => Ok(left | right),
        BinOp::BitXor => Ok(left ^ right),
        BinOp::BitAnd => Ok(left & right),
        BinOp::Eq => Ok(number(left == right)),
        BinOp::Ne => Ok(number(left != right)),
        BinOp::Lt => Ok(number(left < right)),
        BinOp::Le => Ok(number(left <= right)),
        BinOp::Gt => Ok(number(left > right)),
        BinOp::Ge => Ok(number(left >= right)),
        BinOp::Shl => shift_left(left, right),
        BinOp::Shr => shift_right(left, right),
        BinOp::Add => Ok(left.wrapping_add(right)),
        BinOp::Sub => Ok(left.wrapping_sub(right)),
        BinOp::Mul => Ok(left.wrapping_mul(right)),
        BinOp::Div => quotient(left, right),
        BinOp::Rem => remainder(left, right),
    }
}
