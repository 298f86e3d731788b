// Statements of bodies.

use crate::expression::{Expr, Target};
use crate::port::Port;
use p3l_base::List;

/// A statement.
#[derive(Drop)]
pub enum Stmt {
    Assign(Target, Expr),
    /// A condition, what is done where it holds, and what is done where not, if an `else` is
    /// written.
    If(Expr, Vec<Stmt>, Option<Vec<Stmt>>),
    While(Expr, Vec<Stmt>),
    /// The assignment before the loop, the condition, the assignment after each turn, and the
    /// body.
    For(Target, Expr, Expr, Target, Expr, Vec<Stmt>),
}

/// The body of a `seq` module: its local variables and its statements.
#[derive(Drop)]
pub struct Block {
    pub locals: List<Port>,
    pub stmts: List<Stmt>,
}
