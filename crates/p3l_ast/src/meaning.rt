// Meanings of bodies: the plain programs of the definitions.

pub mod expression;
pub mod operator;
pub mod statement;
pub mod stop;
pub mod valuation;

pub use expression::value;
pub use operator::{binary, unary};
pub use statement::{loops_unroll, run_statements};
pub use stop::Stop;
pub use valuation::{Binding, Valuation, has_sizes};
