//! The rules of the arguments of calls.
#![tactic(auto)]

pub mod condition;
pub mod index;
pub mod located;
pub mod map;
pub mod plain;
pub mod port;
pub mod reduce;
pub mod stage;

pub use condition::check_condition;
pub use index::Index;
pub use located::Located;
pub use map::cut_of;
pub use plain::check_plain_call;
pub use reduce::{Elements, elements_of};
pub use stage::check_stage;
