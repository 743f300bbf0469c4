//! The calls of the Unix library on processes, each made of raw calls that the kernel grants or refuses.
//!
//! Each call runs its program, of the same name in `specs/`: what it asks the kernel, one raw call after
//! another, and what it replies.
#![tactic(auto)]

mod birth;
pub mod exit;
mod find;
pub mod kill;
pub mod program_laws;
pub mod spawn;
pub mod status;
pub mod whoami;

pub use birth::{Inherited, give_birth};
pub use find::{Parent, Segment};
pub use spawn::room_for_child;
