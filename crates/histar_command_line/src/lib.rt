//! The command line: reads the task of the program from the words that it is called with.
//!
//! `forms` has each subcommand with its arguments and its help. `clap` reads the words and writes the help.
#![tactic(auto)]

mod command;
mod forms;
mod task;

pub use command::VERSION;
pub use task::{
    AccessKind, AttackFlags, CheckFlags, DiffFlags, LintKind, Request, RunFlags, Shape, Task,
    read_words,
};
