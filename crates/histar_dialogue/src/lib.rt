//! A session that is entered line by line: each line is answered before the next one is read.
#![tactic(auto)]

mod asked;
mod claims;
mod commands;
mod dialogue;
mod input;
mod parts;
mod refusals;
mod running;
mod session;
mod shelf;
mod speaking;
mod texts;
mod undoing;

pub use dialogue::converse;
pub use session::Session;
pub use shelf::{MemoryShelf, SaveFault, Shelf};
