// Expressions, and the places that they read.

use crate::position::Spot;

/// An operator before its operand.
#[derive(Clone, Copy, Debug, Drop, PartialEq, Eq)]
pub enum UnOp {
    /// `-`
    Neg,
    /// `!`
    Not,
    /// `~`
    Flip,
}

/// An operator between its operands.
#[derive(Clone, Copy, Debug, Drop, PartialEq, Eq)]
pub enum BinOp {
    /// `||`
    Or,
    /// `&&`
    And,
    /// `|`
    BitOr,
    /// `^`
    BitXor,
    /// `&`
    BitAnd,
    /// `==`
    Eq,
    /// `!=`
    Ne,
    /// `<`
    Lt,
    /// `<=`
    Le,
    /// `>`
    Gt,
    /// `>=`
    Ge,
    /// `<<`
    Shl,
    /// `>>`
    Shr,
    /// `+`
    Add,
    /// `-`
    Sub,
    /// `*`
    Mul,
    /// `/`
    Div,
    /// `%`
    Rem,
}

/// A variable, or an element of an array by one index for each size, the outermost first.
#[cycle(expression)]
#[derive(Drop)]
pub struct Target {
    pub at: Spot,
    pub index: Vec<Expr>,
}

/// An expression. Parentheses are not kept: the tree says how the operators group.
#[cycle(expression)]
#[derive(Drop)]
pub enum Expr {
    Number(i64),
    Read(Target),
    Unary(UnOp, Box<Expr>),
    Binary(BinOp, Box<Expr>, Box<Expr>),
}
