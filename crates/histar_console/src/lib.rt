//! What the programs share: files, standard streams, exit statuses, the words of the command line, and a plain run.
#![tactic(auto)]

mod files;
mod plain;
mod status;
mod words;

pub use files::{Output, Script, finish, open, output};
pub use plain::run_plain;
pub use status::{Outcome, REFUSED, outcome_status, report};
pub use words::{command_line, refuse};
