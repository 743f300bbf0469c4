//! What a process may do with what is at a path: the rights by which calls are answered or refused.
#![tactic(auto)]

mod rights;
pub mod rights_laws;
mod users;

pub use rights::{Rights, read_rights};
pub use users::UserRights;
