//! Templates: the processes and channels that a node of the tree places in a net, round any inner
//! parts, and the law that each template must satisfy for the linker. Kinds: templates with what
//! surveys of nets and the order of states need of them.
#![tactic(auto)]

pub mod bare;
pub mod builder;
pub mod fan;
pub mod kind;
pub mod lines;
pub mod numbered;
pub mod pipe;
pub mod place;
pub mod run;
pub mod tags;
pub mod template;
pub mod width;
mod workers;

pub use builder::Builder;
pub use fan::Fan;
pub use kind::Kind;
pub use pipe::PipeTemplate;
pub use place::{Site, Slot};
pub use run::RunTemplate;
pub use template::{Ports, Template};
pub use width::{NO_WIDTH, Width};
