//! Runs of scripts with explanations: what `run` of `histar_shell` writes, and after it why each denied raw
//! call was denied, with names.
#![tactic(auto)]

pub mod laws;
mod output;
mod replaying;
mod session;

pub use output::{explained_output, in_memory};
pub use session::explain_script;
