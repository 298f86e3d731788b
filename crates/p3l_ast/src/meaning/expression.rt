// Values of expressions in a valuation.

ghost use Rattle.std.specs.Prelude.{◌≡◌, ◌+◌, ◌*◌, ◌<◌, ◌^◌, Result, Ok, IfOk, drop, length, slice_index};
ghost use Rattle.p3l_ast.specs.Tree.{phrase, phrases};
ghost use Rattle.p3l_ast.specs.Meaning.Valuation.{sizes_of, HasSizes};
ghost use Rattle.p3l_ast.specs.Meaning.Expression.{combined, indexed, value_of, place_of};

use crate::expression::{BinOp, Expr, Target};
use crate::meaning::operator::{binary, unary};
use crate::meaning::valuation::Valuation;
use p3l_base::{Name, TrapKind};

/// The number of an expression, or the first trap.
#[cycle(meaning)]
pub fn value(valuation: &Valuation, expr: &Expr) -> Result<i64, TrapKind>
    requires { HasSizes valuation.now }
    ensures { result ≡ value_of valuation.now (phrase expr.now) }
{
    match expr {
        Expr::Number(number) => Ok(*number),
        Expr::Read(target) => {
            let place = place(valuation, target)?;
            Ok(valuation.word(&target.at.name, place))
        }
        Expr::Unary(op, operand) => {
            let operand = value(valuation, operand)?;
            Ok(unary(*op, operand))
        }
        Expr::Binary(op, left, right) => {
            let left = value(valuation, left)?;
            both(valuation, *op, left, right)
        }
    }
}

/// The number of an expression whose left operand is known.
#[cycle(meaning)]
fn both(valuation: &Valuation, op: BinOp, left: i64, right: &Expr) -> Result<i64, TrapKind>
    requires { HasSizes valuation.now }
    ensures { result ≡ combined op (Ok left) (value_of valuation.now (phrase right.now)) }
{
    if op == BinOp::Or && left != 0 {
        return Ok(1);
    }
    if op == BinOp::And && left == 0 {
        return Ok(0);
    }
    let right = value(valuation, right)?;
    binary(op, left, right)
}

/// The place that the indices of a target lead to, in row-major order, or the first trap.
#[cycle(meaning)]
pub fn place(valuation: &Valuation, target: &Target) -> Result<usize, TrapKind>
    requires { HasSizes valuation.now }
    ensures { result
        ≡ place_of valuation.now (phrases target.now.index.items)
        (sizes_of valuation.now target.now.at.name) 0 }
{
    let sizes = valuation.sizes(&target.at.name);
    let mut place = 0;
    for (dimension, index) in target.index.iter().enumerate() {
        let index = value(valuation, index)?;
        place = element(sizes, dimension, place, index)?;
    }
    Ok(place)
}

/// The place of an element of one dimension more.
fn element(sizes: &[u32], dimension: usize, place: usize, index: i64) -> Result<usize, TrapKind>
    requires { dimension < length sizes.now → place < 2 ^ 32 }
    ensures value { result ≡ indexed (drop dimension sizes.now) place (λ rest next. Ok next) index }
    ensures within { IfOk result (λ next. dimension < length sizes.now) }
    ensures below { IfOk result (λ next. next < (place + 1) * slice_index sizes.now dimension) }
{
    if dimension >= sizes.len() {
        return Err(TrapKind::Index);
    }
    let size = sizes[dimension];
    if index < 0 || index >= i64::from(size) {
        return Err(TrapKind::Index);
    }
    Ok(place * size as usize + index as usize)
}
