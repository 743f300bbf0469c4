//! Who may do what in a machine: the rights of each running process at each path, computed from the labels of
//! the kernel's own objects.
#![tactic(auto)]

pub mod access_laws;
mod cells;
mod changes;
mod rights_table;
mod session;
mod table;
mod users;
mod users_rights;

pub use changes::{DiffOptions, diff};
pub use rights_table::table_of;
pub use session::{access, access_users};
pub use users_rights::users_table_of;
