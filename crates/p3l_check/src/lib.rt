//! The rules of whole programs, and the tree and the bodies of a program that keeps them: the tree
//! has an instance of a module for each call, unfolded along the calls.
#![tactic(auto)]

pub mod callables;
pub mod callee;
pub mod clauses;
mod copy;
pub mod defined;
pub mod environment;
pub mod inside;
mod instance;
pub mod modules;
mod nesting;
pub mod places;
pub mod progress;
pub mod resolving;
pub mod skeleton;
pub mod unfolding;

pub use callables::Callable;
pub use defined::Defined;
pub use environment::Environment;
pub use modules::Modules;
pub use places::Places;
pub use progress::Progress;
pub use resolving::{Resolved, resolve};
pub use skeleton::Skeleton;
pub use unfolding::{UnfoldRefusal, unfold};
