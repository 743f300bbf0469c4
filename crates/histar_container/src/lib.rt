//! Links between objects, and the removal of an object with all that hangs below it.
#![tactic(auto)]

mod container;
mod removal;

pub use container::{link_new, linked};
pub use removal::remove_tree;
