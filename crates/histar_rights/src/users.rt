//! Rights of users.

use crate::rights::Rights;
use histar_flat::Name;

/// A user, and the rights at a path of a process of this user that is in no job and holds none.
#[derive(Clone, Copy)]
pub struct UserRights {
    pub user: Name,
    pub rights: Rights,
}
