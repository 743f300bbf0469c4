//! Finds the first bad line of a mixed session, and the sentence of the first rule that it breaks.
//!
//! `specs/Rules.antt` contains the rules in their order. [`attack_lint_laws`] states what they amount
//! to.
#![tactic(auto)]

pub mod attack_lint_laws;
mod findings;
mod session;

pub use session::lint_attack;
