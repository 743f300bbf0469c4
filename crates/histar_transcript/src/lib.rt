//! The output of a run with each reply after its call, and with notes on refused and denied calls; and the replies to
//! calls that are tried behind a script.
#![tactic(auto)]

mod extended;
mod front;
mod noted;
pub mod notes_laws;
mod session;
mod transcript;
mod tried;
pub mod try_laws;
mod try_session;

pub use front::front_before;
pub use session::{Notes, run_with_notes};
pub use try_session::{Tried, try_calls};
