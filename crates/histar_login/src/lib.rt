//! Where a machine starts, and logging in.
#![tactic(auto)]

mod boot_calls;
mod gates;
pub mod login;
pub mod program_laws;
mod table;

pub use boot_calls::boot;
