//! Compares the run of a script with the run of the script without the lines of a job.
#![tactic(auto)]

mod comparison;
mod explained;
mod jobs;
mod observation;
mod replies;
mod whole;

pub use comparison::compare;
pub use explained::{Explained, explain_comparison};
pub use histar_noninterference::Verdict;
pub use jobs::{JobVerdict, compare_all};
