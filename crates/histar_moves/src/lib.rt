//! The calls of the Unix library that remove or rename entries of directories, each made of raw
//! calls that the kernel grants or refuses.
//!
//! Each call runs its program, of the same name in `specs/`: what it asks the kernel, one raw call after
//! another, and what it replies.
#![tactic(auto)]

mod entry;
pub mod program_laws;
pub mod rename;
pub mod rmdir;
pub mod rmtree;
pub mod unlink;
