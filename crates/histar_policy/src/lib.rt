//! What a reader would want to know of a right script: calls of processes that were never started,
//! logins with another password than the user's, jobs that are never used, files that others than their
//! makers may take away, and files for a group that nobody but their makers writes.
//!
//! `specs/Warnings.antt` defines the warnings. [`policy_laws`] states what they amount to.
#![tactic(auto)]

mod answers;
mod names;
mod notes;
pub mod policy_laws;
mod session;
mod takers;
mod taking;
mod warnings;
mod written;

pub use notes::{Event, Note};
pub use session::{Found, lint_policy};
pub use takers::{Creation, Users};
