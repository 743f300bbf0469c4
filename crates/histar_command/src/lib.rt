//! Commands: what is made of the text of a script, and one function that reads a script and runs a command on it.
#![tactic(auto)]

mod command;

pub use command::{Command, run_command};
