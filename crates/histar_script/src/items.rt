//! Items: what the lines of a script say.
use histar_flat::{Group, ProcName, UnixCall, User};

/// What one line says.
#[derive(Drop)]
pub enum Item {
    Comment,
    User(User),
    Group(Group),
    Call(ProcName, UnixCall),
}
