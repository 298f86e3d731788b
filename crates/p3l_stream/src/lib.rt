//! The stream: the items of a source's lines, requested one by one, and the text that items are
//! written as.
#![tactic(auto)]

mod buffer;
pub mod items;
pub mod laws;
pub mod line;
pub mod lines;
mod long;
pub mod next;
mod numeral;
mod part;
pub mod taken;
pub mod text;
pub mod word;

pub use items::{Ending, Items};
pub use line::LineContent;
pub use lines::Lines;
pub use next::Next;
pub use taken::Cutoff;
pub use text::{Text, item_text, text_of};
pub use word::WordFault;
