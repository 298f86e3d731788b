//! The program of a source text: what is written, where each name is, and why a text is
//! refused.
#![tactic(auto)]

pub mod call;
pub mod expression;
pub mod meaning;
pub mod module;
pub mod notation;
pub mod port;
pub mod position;
pub mod program;
pub mod refusal;
pub mod statement;

pub use call::{Arg, Call, OutArg, Sub};
pub use expression::{BinOp, Expr, Target, UnOp};
pub use module::{Clauses, Inside, Kind, Module, Rescue};
pub use port::{Num, Port};
pub use position::{Pos, Spot};
pub use program::{Entry, Program};
pub use refusal::{Fault, SourceRefusal};
pub use statement::{Block, Stmt};
