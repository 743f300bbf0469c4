//! Noninterference of a job: compares the runs of a script with and without the job's calls, and proves that
//! outsiders can't tell them apart.
#![tactic(auto)]

pub mod isolation_laws;
mod replies;
mod trees;
mod verdict;

pub use replies::{ShownReply, first_line};
pub use trees::first_difference;
pub use verdict::Verdict;
