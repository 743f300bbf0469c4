//! Runs scripts between a source and a sink of bytes.
#![tactic(auto)]

mod calls;
mod ending;
mod machine;
mod output;
mod raw;
mod session;
pub mod trace_laws;

pub use ending::write_ending;
pub use histar_io::{Counted, Sink, Source};
pub use machine::{Machine, Trace};
pub use output::{node_text, push_stat, reply_text, set_reply_line};
pub use session::{Options, answer_call, run, run_with};
