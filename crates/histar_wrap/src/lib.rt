//! Wrapping: a job with a scratch directory of its own, which reads as its user and writes nowhere else.
//!
//! The call runs its program, of the same name in `specs/`: what it asks the kernel, one raw call after
//! another, and what it replies.
#![tactic(auto)]

pub mod program_laws;
mod scratch;
pub mod wrap;
