//! Writes and reads the texts of raw kernel calls, and writes those of answers and of the trace.
//!
//! [`rawtext_laws`] states that a text determines the call that it is the text of.
#![tactic(auto)]

mod answers;
mod entries;
mod labels;
mod raw_calls;
pub mod rawtext_laws;
mod read_calls;
mod read_labels;
mod read_words;
mod unread;
mod words;

pub use answers::write_answer;
pub use entries::{denial_name, trace_line};
pub use labels::push_level;
pub use raw_calls::write_call;
pub use read_calls::read_raw;
pub use words::push_number;
