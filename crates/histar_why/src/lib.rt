//! Runs of scripts with reasons: what `run` of `histar_shell` writes, and after it why each refused
//! call was refused, in the words of the rules.
//!
//! A refusal changes nothing, so each reason is read off the machine's own objects after its line.
#![tactic(auto)]

mod absences;
mod answering;
mod asked;
mod causes;
mod implied;
mod logging;
mod names;
mod reasons;
mod sentences;
mod session;
mod views;
mod ways;

pub use answering::answer_with_reason;
pub use session::{Log, run_with_reasons};
