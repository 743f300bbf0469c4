//! What all calls of the Unix library are made of. Each call runs its program: what it asks the kernel, one
//! raw call after another, and what it replies.
//!
//! [`CallError`] is the early end of a call. [`walk`], [`find_room`] and [`write_entries`] are the parts of
//! programs that several calls share. [`find_caller`] finds the process of a line in the kernel's own table, and
//! [`Unix`] says for whom a call is made.
//! [`program_laws`] says to which replies the kernel's refusals lead in every program.
#![tactic(auto)]

mod call_error;
mod caller;
mod directory;
mod find;
mod kin;
pub mod program_laws;
mod roots;
mod unix;

pub use call_error::{CallError, Stopped, settle, written};
pub use caller::{Caller, caller_in, find_caller, home_at};
pub use directory::{Directory, entry_at, file_at, find_place, look_in, walk, write_entries};
pub use find::{FoundFile, Room, find_file, find_room};
pub use kin::{categories_of, joined, owned_by, user_name};
pub use roots::{Home, Place, Roots};
pub use unix::Unix;
