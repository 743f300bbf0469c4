//! Printing numbers, paths and the names of processes.
#![tactic(auto)]

mod texts;

pub use texts::{push_number, push_path, push_process};
