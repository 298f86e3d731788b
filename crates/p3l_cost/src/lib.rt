//! The numbers of the cost model, for each module of the source.
#![tactic(auto)]

pub mod costs;
pub mod lawful;
mod limits;
pub mod read;
pub mod refusal;
mod rules;
pub mod section;

pub use costs::{Costs, standard};
pub use lawful::lawful_costs;
pub use read::read_costs;
pub use refusal::CostRefusal;
