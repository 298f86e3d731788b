// Expressions before whose use no lines stand.

ghost use Rattle.std.specs.Prelude.{◌≡◌, ◌<◌, IfSome};
ghost use Rattle.p3l_ast.specs.Tree.{phrase};
ghost use Rattle.p3l_c.specs.Translate.{is_steady};
ghost use Rattle.p3l_c_print.specs.Value.{own_temp};
ghost use Rattle.p3l_c_print.specs.Plain.{plain_height, steady_height, over_both};

use crate::operator::{Class, class_of};
use p3l_ast::{BinOp, Expr};

/// The height over two operands, if both have one.
fn over_both(left: Option<u32>, right: Option<u32>) -> Option<u32>
    requires left { IfSome left (λ height. height < 16) }
    requires right { IfSome right (λ height. height < 16) }
    ensures { result ≡ over_both left right }
{
    let (Some(one), Some(two)) = (left, right) else {
        return None;
    };
    Some(u32::max(one, two) + 1)
}

/// The height of an expression before whose use no lines stand.
#[cycle(plain)]
#[tactic(auto, using(crate::proofs::Heights::plain_heights))]
fn plain_height(expr: &Expr) -> Option<u32>
    ensures { result ≡ plain_height (phrase expr.now) }
{
    match expr {
        Expr::Number(_) => Some(0),
        Expr::Read(target) => {
            if target.index.len() == 0 {
                Some(0)
            } else {
                None
            }
        }
        Expr::Unary(_, operand) => {
            let height = steady_height(operand);
            over_both(height, height)
        }
        Expr::Binary(op, left, right) => {
            if class_of(*op) == Class::Guarded {
                return None;
            }
            over_both(steady_height(left), steady_height(right))
        }
    }
}

/// The height of an operand before whose use no lines stand.
#[cycle(plain)]
#[tactic(auto, unfolding(crate::specs::Plain::steady_height))]
fn steady_height(expr: &Expr) -> Option<u32>
    ensures height { result ≡ steady_height (phrase expr.now) }
    ensures small { IfSome result (λ height. height < 16) }
{
    match plain_height(expr) {
        Some(height) => { if 16 <= height { None } else { Some(height) } }
        None => None,
    }
}

/// Returns true exactly if no lines stand before the use of an operand.
#[tactic(auto, using(crate::proofs::Heights::steady_is))]
fn is_steady(expr: &Expr) -> bool
    ensures { result ≡ is_steady (phrase expr.now) }
{
    steady_height(expr).is_some()
}

/// Returns true exactly if an operator has a temp of its own.
pub fn has_own_temp(op: BinOp, right: &Expr) -> bool
    ensures { result ≡ own_temp op (is_steady (phrase right.now)) }
{
    match op {
        BinOp::Or | BinOp::And => !is_steady(right),
        _ => false,
    }
}
