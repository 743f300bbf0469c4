//! Secrecy and integrity of a file: which processes have to be trusted to keep it secret and unchanged.
#![tactic(auto)]

mod changers;
mod file_class;
mod rights;
mod role;
pub mod secrecy_laws;

pub use changers::{changers_of, login_changers, writes_one};
pub use file_class::FileClass;
pub use rights::{knows_all, may_read, may_write};
pub use role::{Member, Role, has_role, login_readers, reads_all, with_role};
