//! The role of a process towards a file: trusted, confined or an outsider.
ghost use Rattle.std.specs.Prelude.{◌≡◌, IfOk, filter, map};
ghost use Rattle.histar_secrecy.specs.ShownRoles.{flat_class, has_role, has_shown_role, is_login_reader, is_same_role, member_role, of_groups, reads_each, with_rights, with_user};
ghost use Rattle.histar_secrecy.specs.Ways.{reads_all};

use crate::file_class::FileClass;
use crate::rights::may_read;
use histar_flat::{Group, Name, ProcName};
use std::alloc::{AllocError, Global};

/// The role of a process that runs, towards what is in a file.
#[derive(Clone, Copy)]
pub enum Role {
    /// It may read the file, and nothing confines it: it is trusted with what is in the file.
    Trusted,
    /// It may read the file, and whatever it may write, only readers of the file may read.
    Confined,
    /// It may not read the file.
    Outside,
}

/// A process that runs: its user, the jobs that it is in, and those that it holds, by numbers. No two jobs
/// have the same number.
#[derive(Drop)]
pub struct Member {
    pub name: ProcName,
    pub user: Name,
    pub jobs: Vec<u64>,
    pub held: Vec<u64>,
}

/// Checks whether a process of this user, which is in some jobs and holds some, may read what is of each of
/// these classes.
pub fn reads_all(
    groups: &[Group],
    user: Name,
    jobs: &[u64],
    held: &[u64],
    classes: &[FileClass],
) -> bool
    ensures { result ≡ reads_all (of_groups groups.now) (map flat_class classes.now)
        (with_rights user jobs.now held.now) }
{
    reads_each(groups, user, jobs, held, classes)
}

/// Checks the same, class by class.
fn reads_each(
    groups: &[Group],
    user: Name,
    jobs: &[u64],
    held: &[u64],
    classes: &[FileClass],
) -> bool
    ensures { result ≡ reads_each groups.now (with_rights user jobs.now held.now) classes.now }
{
    classes
        .iter()
        .all(|class| may_read(groups, user, jobs, held, class))
}

/// Returns the role of a process towards a file. The classes are those of the file, and of each directory
/// above it.
fn role_of(groups: &[Group], classes: &[FileClass], member: &Member) -> Role
    ensures { result ≡ member_role groups.now (map flat_class classes.now) member.now }
{
    let jobs = member.jobs.as_slice();
    if !reads_all(groups, member.user, jobs, member.held.as_slice(), classes) {
        Role::Outside
    } else if !jobs.is_empty() && reads_all(groups, member.user, jobs, &[], classes) {
        Role::Confined
    } else {
        Role::Trusted
    }
}

/// Checks whether two roles are the same.
fn is_same(one: Role, other: Role) -> bool
    ensures { result ≡ is_same_role one other }
{
    match one {
        Role::Trusted => matches!(other, Role::Trusted),
        Role::Confined => matches!(other, Role::Confined),
        Role::Outside => matches!(other, Role::Outside),
    }
}

/// Returns the processes that have this role towards a file, each with its user. The classes are those of the
/// file, and of each directory above it.
pub fn with_role(
    alloc: Global,
    groups: &[Group],
    classes: &[FileClass],
    role: Role,
    members: &[Member],
) -> Result<Vec<(ProcName, Name)>, AllocError>
    ensures { IfOk result (λ v. v.items ≡ map with_user
        (filter (has_role groups.now (map flat_class classes.now) role) members.now)) }
{
    those_with(alloc, groups, classes, role, members)
}

/// Returns the same.
fn those_with(
    alloc: Global,
    groups: &[Group],
    classes: &[FileClass],
    role: Role,
    members: &[Member],
) -> Result<Vec<(ProcName, Name)>, AllocError>
    ensures { IfOk result (λ v. v.items ≡ map with_user
        (filter (has_shown_role groups.now classes.now role) members.now)) }
{
    members
        .iter()
        .filter(|member| has_role(groups, classes, role, member))
        .map(|member| (member.name, member.user))
        .collect(alloc)
}

/// Checks whether a process has this role.
pub fn has_role(groups: &[Group], classes: &[FileClass], role: Role, member: &Member) -> bool
    ensures { result ≡ has_shown_role groups.now classes.now role member.now }
{
    is_same(role, role_of(groups, classes, member))
}

/// Returns the users as whom a process that logs in may read the file.
pub fn login_readers(
    alloc: Global,
    groups: &[Group],
    classes: &[FileClass],
    users: &[Name],
) -> Result<Vec<Name>, AllocError>
    ensures { IfOk result (λ v.
        v.items ≡ filter (is_login_reader groups.now (map flat_class classes.now)) users.now) }
{
    users
        .iter()
        .filter(|user| reads_all(groups, **user, &[], &[], classes))
        .copied()
        .collect(alloc)
}
