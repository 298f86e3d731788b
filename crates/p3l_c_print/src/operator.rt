// The operators between operands, by how they are written.

ghost use Rattle.std.specs.Prelude.{◌≡◌};
ghost use Rattle.p3l_c_print.specs.Value.{class_of, sign_text};

use p3l_ast::BinOp;

/// A kind of operator between operands, by the way it is written.
#[derive(Clone, Copy, Debug, Drop, PartialEq, Eq)]
pub enum Class {
    /// `||` and `&&`: the right operand is only evaluated where the left one does not decide.
    Short,
    /// A comparison.
    Compared,
    /// An operator of words that wrap.
    Computed,
    /// A division or a shift, whose operands are tested.
    Guarded,
}

/// The class of an operator.
pub fn class_of(op: BinOp) -> Class
    ensures { result ≡ class_of op }
{
    match op {
        BinOp::Or | BinOp::And => Class::Short,
        BinOp::Eq | BinOp::Ne | BinOp::Lt | BinOp::Le | BinOp::Gt | BinOp::Ge => Class::Compared,
        BinOp::Shl | BinOp::Shr | BinOp::Div | BinOp::Rem => Class::Guarded,
        BinOp::BitOr | BinOp::BitXor | BinOp::BitAnd | BinOp::Add | BinOp::Sub | BinOp::Mul =>
            Class::Computed,
    }
}

/// An operator with a space on each side.
pub fn sign_of(op: BinOp) -> &'static str
    ensures { result.now ≡ sign_text op }
{
    match op {
        BinOp::Or => " || ",
        BinOp::And => " && ",
        BinOp::BitOr => " | ",
        BinOp::BitXor => " ^ ",
        BinOp::BitAnd => " & ",
        BinOp::Eq => " == ",
        BinOp::Ne => " != ",
        BinOp::Lt => " < ",
        BinOp::Le => " <= ",
        BinOp::Gt => " > ",
        BinOp::Ge => " >= ",
        BinOp::Shl => " << ",
        BinOp::Shr => " >> ",
        BinOp::Add => " + ",
        BinOp::Sub => " - ",
        BinOp::Mul => " * ",
        BinOp::Div => " / ",
        BinOp::Rem => " % ",
    }
}
