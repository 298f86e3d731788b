//! The scan of a list by a template made of templates: its plan, its units and its place in a net.
#![tactic(auto)]

mod block;
pub mod laws;
pub mod plan;
pub mod refusal;
pub mod stage;
pub mod stages;
pub mod template;
mod tree;
pub mod units;

pub use plan::{ScanPlan, can_scan, scan_plan};
pub use refusal::ScanRefusal;
pub use template::ScanTemplate;
pub use units::ScanUnits;
