//! The page of a session, from bytes to bytes.
#![tactic(auto)]

mod front;
pub mod laws;
mod session;

pub use session::report;
