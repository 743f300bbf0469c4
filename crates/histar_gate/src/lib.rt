//! The raw calls that make gates and enter them.
#![tactic(auto)]

mod gates;

pub use gates::{enter, make_gate};
