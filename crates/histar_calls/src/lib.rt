//! The file calls of the Unix library, each made of raw calls that the kernel grants or refuses.
//!
//! Each call runs its program, of the same name in `specs/`: what it asks the kernel, one raw call after
//! another, and what it replies. [`program_laws`] says to which replies the kernel's refusals lead in these
//! programs.
#![tactic(auto)]

pub mod append;
pub mod create;
pub mod list;
pub mod mkdir;
pub mod program_laws;
pub mod read;
pub mod stat;
pub mod write;
