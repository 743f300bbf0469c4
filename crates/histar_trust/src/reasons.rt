//! Why a process is a changer of what is at a path, and why one is confined.
ghost use Rattle.std.specs.Prelude.{◌≡◌, ◌&&◌, ◌++◌, [], map, OnOk};
ghost use Rattle.histar_secrecy.specs.Roles.{is_bound};
ghost use Rattle.histar_secrecy.specs.ShownRoles.{changes_one, flat_class, of_groups, with_rights};
ghost use Rattle.histar_trust.specs.Findings.{changes_here, named_jobs, shown_job, shown_power};
ghost use Rattle.histar_trust.specs.Reasons.{by_job, by_path};

use crate::ancestors::Ancestor;
use histar_flat::{Group, Name, Path, ProcName};
use histar_secrecy::{FileClass, may_write, reads_all, writes_one};
use histar_texts::{push_path, push_process};
use std::alloc::AllocError;

/// What the rights of a process go by: its user, the jobs that it is in, and those that it holds.
#[derive(Drop)]
pub struct Rights<'a> {
    pub user: Name,
    pub jobs: &'a [u64],
    pub held: &'a [u64],
}

/// Checks whether a process may change what is of the first class, and lies in directories of the others.
pub fn may_change(groups: &[Group], rights: &Rights, classes: &[FileClass]) -> bool
    ensures { result ≡ changes_one groups.now
        (with_rights rights.now.user rights.now.jobs.now rights.now.held.now) classes.now }
{
    writes_one(groups, rights.user, rights.jobs, rights.held, classes)
}

/// Returns the highest of these places, one of each class, by which a process may change what is at the first.
pub fn highest_power(
    groups: &[Group],
    rights: &Rights,
    classes: &[FileClass],
    places: &[Path],
) -> Option<Path>
    ensures { result ≡ shown_power groups.now
        (with_rights rights.now.user rights.now.jobs.now rights.now.held.now) classes.now places.now }
{
    let [class, above @ ..] = classes else {
        return None;
    };
    let [place, higher @ ..] = places else {
        return None;
    };
    let found = highest_power(groups, rights, above, higher);
    if found.is_some() {
        return found;
    }
    if changes_here(groups, rights, class, above) {
        Some(*place)
    } else {
        None
    }
}

/// Checks whether a process may write what is of a class, and read what is of each class above.
fn changes_here(groups: &[Group], rights: &Rights, class: &FileClass, above: &[FileClass]) -> bool
    ensures { result ≡ changes_here groups.now
        (with_rights rights.now.user rights.now.jobs.now rights.now.held.now) class.now above.now }
{
    may_write(groups, rights.user, rights.jobs, rights.held, class)
        && reads_all(groups, rights.user, rights.jobs, rights.held, above)
}

/// Returns the outermost job in which a process of this user would be bound by classes, if it were in this one
/// and those around it alone: the first of its ancestors in whose jobs it would be.
pub fn outermost_job(
    groups: &[Group],
    classes: &[FileClass],
    user: Name,
    ancestors: &[Ancestor],
) -> Option<ProcName>
    ensures { result ≡ shown_job groups.now (map flat_class classes.now) user
        (map named_jobs ancestors.now) }
{
    let [first, rest @ ..] = ancestors else {
        return None;
    };
    if is_bound_as(groups, classes, user, first) {
        return Some(first.name);
    }
    outermost_job(groups, classes, user, rest)
}

/// Checks whether a process of this user in the jobs of another process is bound by classes.
fn is_bound_as(groups: &[Group], classes: &[FileClass], user: Name, other: &Ancestor) -> bool
    ensures { result ≡ is_bound (of_groups groups.now) (map flat_class classes.now)
        (with_rights user other.now.jobs.items []) }
{
    let jobs = other.jobs.as_slice();
    !jobs.is_empty() && reads_all(groups, user, jobs, &[], classes)
}

/// Adds a path by which a process may change something, if there is one.
pub fn push_by_path(text: &mut Vec<u8>, place: Option<Path>) -> Result<(), AllocError>
    ensures { OnOk result (text.new.items ≡ text.old.items ++ by_path place) }
{
    let Some(path) = place else {
        return Ok(());
    };
    text.extend_from_slice(b" by ")?;
    push_path(*text.allocator(), text, &path)
}

/// Adds a job by which a process is bound, if there is one.
pub fn push_by_job(text: &mut Vec<u8>, job: Option<ProcName>) -> Result<(), AllocError>
    ensures { OnOk result (text.new.items ≡ text.old.items ++ by_job job) }
{
    let Some(name) = job else {
        return Ok(());
    };
    text.extend_from_slice(b" by job ")?;
    push_process(*text.allocator(), text, &name)
}
