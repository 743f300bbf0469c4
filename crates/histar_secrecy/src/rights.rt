//! The rights of processes to files of a class.
ghost use Rattle.std.specs.Prelude.{◌≡◌, ◌||◌, nat_eq};
ghost use Rattle.std.specs.List.{list_all, list_any};
ghost use Rattle.histar_flat.specs.Accounts.{is_member};
ghost use Rattle.histar_flat.specs.Classes.{may_read, may_write};
ghost use Rattle.histar_secrecy.specs.ShownRoles.{flat_class, of_groups, with_rights};

use crate::file_class::FileClass;
use histar_flat::{Group, Name};

/// Checks whether a process of this user, which is in some jobs and holds some, may read a file.
#[tactic(auto, using(crate::proofs::NumberedJobs::knows_numbers))]
pub fn may_read(groups: &[Group], user: Name, jobs: &[u64], held: &[u64], class: &FileClass) -> bool
    ensures { result ≡ may_read (of_groups groups.now)
        (with_rights user jobs.now held.now) (flat_class class.now) }
{
    match class {
        FileClass::Private(owner) => user == *owner,
        FileClass::Readable(_) | FileClass::Open => true,
        FileClass::Scratch(owner, of) => { user == *owner && knows_all(jobs, held, of.as_slice()) }
        FileClass::Grouped(group) => is_member(groups, user, *group),
    }
}

/// Checks whether a process of this user, which is in some jobs and holds some, may write a file or a
/// directory.
pub fn may_write(
    groups: &[Group],
    user: Name,
    jobs: &[u64],
    held: &[u64],
    class: &FileClass,
) -> bool
    ensures { result ≡ may_write (of_groups groups.now)
        (with_rights user jobs.now held.now) (flat_class class.now) }
{
    match class {
        FileClass::Private(owner) | FileClass::Readable(owner) => {
            user == *owner && jobs.is_empty()
        }
        FileClass::Open => jobs.is_empty(),
        FileClass::Scratch(_, of) => {
            may_read(groups, user, jobs, held, class) && has_all(of.as_slice(), jobs)
        }
        FileClass::Grouped(group) => is_member(groups, user, *group) && jobs.is_empty(),
    }
}

/// Checks whether each of `others` is one of these jobs.
fn has_all(jobs: &[u64], others: &[u64]) -> bool
    ensures { result ≡ list_all (λ other. list_any (nat_eq other) jobs.now) others.now }
{
    others.iter().all(|other| has(jobs, *other))
}

/// Checks whether a process that is in some jobs and holds some knows each of the jobs `of`.
pub fn knows_all(jobs: &[u64], held: &[u64], of: &[u64]) -> bool
    ensures { result ≡ list_all
        (λ job. list_any (nat_eq job) jobs.now || list_any (nat_eq job) held.now) of.now }
{
    of.iter().all(|job| has(jobs, *job) || has(held, *job))
}

/// Checks whether the job is one of these.
fn has(jobs: &[u64], job: u64) -> bool
    ensures { result ≡ list_any (nat_eq job) jobs.now }
{
    jobs.iter().any(|other| job == *other)
}

/// Checks whether the user is a member of the group.
fn is_member(groups: &[Group], user: Name, group: Name) -> bool
    ensures { result ≡ is_member (of_groups groups.now) user group }
{
    groups.iter().any(|g| g.name() == group && g.has(user))
}
