//! Certificates that numbers of workers are the best, and their checker.
#![tactic(auto)]

pub mod cert;
pub mod certifier;
pub mod checker;
mod fill;
mod find;
pub mod item;
mod keys;
mod rule;
mod table;
pub mod text;

pub use cert::{Cert, CertRefusal, Claim, Key, Row};
pub use certifier::certify;
pub use checker::check;
pub use text::{cert_text, read_cert};
