//! A process that bypasses the Unix library: sessions in which the threads of a job make raw calls
//! between the Unix calls of a script.
#![tactic(auto)]

pub mod attack_laws;
mod confinement;
mod handling;
mod session;
mod texts;

pub use confinement::{is_outside_caller, is_tainted_caller, job_category};
pub use session::{AttackOptions, attack};
