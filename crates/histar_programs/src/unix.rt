//! For whom a call is made.
use crate::caller::Caller;
use crate::roots::Roots;
use histar_flat::ProcName;
use histar_layout::UserTable;

/// The process that makes a call, with the users of its machine and where boot left `/` and process 0.
#[derive(Clone, Copy)]
pub struct Unix<'a> {
    pub roots: &'a Roots,
    pub users: &'a UserTable,
    /// The name of the process.
    pub process: &'a ProcName,
    pub caller: &'a Caller,
}
