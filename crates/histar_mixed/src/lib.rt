//! Mixed sessions: scripts with raw calls of threads between their lines.
#![tactic(auto)]

mod items;
mod reader;

pub use items::MixedItem;
pub use reader::{Mixed, raw_part, read_mixed};
