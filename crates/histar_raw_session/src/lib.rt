//! Raw sessions: comments, and lines with one raw call of a thread each. The kernel answers or denies the
//! calls one by one, from its empty state on.
#![tactic(auto)]

mod lines;
pub mod read_session;
mod session;

pub use lines::{answer_line, denial_line};
pub use read_session::RawLine;
pub use session::{answer_call, empty_kernel, run_raw_script};
