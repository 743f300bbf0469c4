//! Why a script is bad: its first bad line, with the sentence of the first rule that the line breaks.
//!
//! `specs/Rules.antt` has the rules in their order. [`lint_laws`] says what they guarantee. The rules of
//! [`line_rules`] are for lines of raw and of mixed sessions too.
#![tactic(auto)]

mod call_rules;
mod declaration_rules;
mod findings;
pub mod line_rules;
pub mod lint_laws;
mod session;
mod shapes;
pub mod texts;
mod word_rules;

pub use findings::{copied, sentence};
pub use session::{finding, lint, sentence_on, take_line};
