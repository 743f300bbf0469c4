//! Finds the first bad line of a raw session, and the sentence of the first rule that this line breaks.
//!
//! `specs/Rules.antt` contains the rules in their order. [`raw_lint_laws`] states what they amount to.
#![tactic(auto)]

mod call_rules;
mod findings;
mod kinds;
mod labels;
mod line_rules;
mod numbers;
pub mod raw_lint_laws;
mod session;
mod texts;
mod values;

pub use findings::thread_call_sentence;
pub use session::lint_raw;
