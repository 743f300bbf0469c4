//! Machines that have made the calls of a script before a line: which flat state each represents, and its
//! processes.
#![tactic(auto)]

mod listing;
mod session;

pub use listing::processes;
pub use session::{discard, machine_before};
