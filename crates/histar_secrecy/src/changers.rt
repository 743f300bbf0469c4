//! The processes and users that may change what is at a path.
ghost use Rattle.std.specs.Prelude.{◌≡◌, IfOk, filter, map};
ghost use Rattle.histar_secrecy.specs.ShownRoles.{changes_one, is_login_changer, is_shown_changer, with_rights, with_user};

use crate::file_class::FileClass;
use crate::rights::may_write;
use crate::role::{Member, reads_all};
use histar_flat::{Group, Name, ProcName};
use std::alloc::{AllocError, Global};

/// Returns the processes that may change what is at a path, each with its user. The classes are those of what
/// is at the path, and of each directory above it.
pub fn changers_of(
    alloc: Global,
    groups: &[Group],
    classes: &[FileClass],
    members: &[Member],
) -> Result<Vec<(ProcName, Name)>, AllocError>
    ensures { IfOk result (λ v.
        v.items ≡ map with_user (filter (is_shown_changer groups.now classes.now) members.now)) }
{
    members
        .iter()
        .filter(|member| {
            let jobs = member.jobs.as_slice();
            writes_one(groups, member.user, jobs, member.held.as_slice(), classes)
        })
        .map(|member| (member.name, member.user))
        .collect(alloc)
}

/// Returns the users as whom a process that logs in may change what is at the path.
pub fn login_changers(
    alloc: Global,
    groups: &[Group],
    classes: &[FileClass],
    users: &[Name],
) -> Result<Vec<Name>, AllocError>
    ensures { IfOk result (λ v.
        v.items ≡ filter (is_login_changer groups.now classes.now) users.now) }
{
    users
        .iter()
        .filter(|user| writes_one(groups, **user, &[], &[], classes))
        .copied()
        .collect(alloc)
}

/// Checks whether a process may write what is of one of these classes, and read what is of each behind it.
pub fn writes_one(
    groups: &[Group],
    user: Name,
    jobs: &[u64],
    held: &[u64],
    classes: &[FileClass],
) -> bool
    ensures { result ≡ changes_one groups.now (with_rights user jobs.now held.now) classes.now }
{
    let [class, above @ ..] = classes else {
        return false;
    };
    may_write(groups, user, jobs, held, class) && reads_all(groups, user, jobs, held, above)
        || writes_one(groups, user, jobs, held, above)
}
