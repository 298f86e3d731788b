// The marks of operators before an operand, and the keywords of modules.

ghost use Rattle.std.specs.Prelude.{◌≡◌};
ghost use Rattle.p3l_grammar.specs.Symbol.{unary_mark, kind_mark};

use p3l_ast::{BinOp, Kind, UnOp};
use p3l_lexer::Mark;

/// The mark of an operator before its operand.
pub fn mark_of_unary(op: UnOp) -> Mark
    ensures { result ≡ unary_mark op }
{
    match op {
        UnOp::Neg => Mark::Operator(BinOp::Sub),
        UnOp::Not => Mark::Bang,
        UnOp::Flip => Mark::Tilde,
    }
}

/// The keyword that begins and ends a module.
pub fn mark_of_kind(kind: Kind) -> Mark
    ensures { result ≡ kind_mark kind }
{
    match kind {
        Kind::Seq => Mark::Seq,
        Kind::Comp => Mark::Comp,
        Kind::Pipe => Mark::Pipe,
        Kind::Farm => Mark::Farm,
        Kind::Map => Mark::Map,
        Kind::Reduce => Mark::Reduce,
        Kind::Loop => Mark::Loop,
    }
}
