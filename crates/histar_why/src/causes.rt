//! Why a process may not read or write what is of a class.
ghost use Rattle.std.specs.Prelude.{◌≡◌, option_map};
ghost use Rattle.histar_flat.specs.Accounts.{has, is_member};
ghost use Rattle.histar_flat.specs.Classes.{nobody};
ghost use Rattle.histar_reasons.specs.Causes.Cause.{LeavesJob, NeedsJob};
ghost use Rattle.histar_reasons.specs.Causes.{innermost, left, unknown, unread, unwritten};
ghost use Rattle.histar_why.specs.Causes.{cause_of, class_by, jobs_for};
ghost use Rattle.histar_why.specs.Names.{process_of};

use crate::names::Caller;
use histar_flat::{Name, ProcName, read_name};
use histar_layout::{Class, UserTable};

/// A part of the rule of a class that fails.
#[derive(Clone, Copy)]
pub(crate) enum Cause {
    /// It is private, of this owner, who is not the process's user.
    IsPrivate(Name),
    /// It is readable, and this owner alone writes it.
    IsReadable(Name),
    /// It is scratch, of this owner, who is not the process's user.
    IsScratch(Name),
    /// It is of this group, in which the process's user is not.
    IsGrouped(Name),
    /// It is of this job, which the process neither is in nor holds.
    NeedsJob(ProcName),
    /// The process is in this job, and it is not of the job.
    LeavesJob(ProcName),
}

/// Returns why a process may not read what is of a class with these jobs.
pub(crate) fn unread(
    users: &UserTable,
    caller: &Caller,
    class: &Class,
    jobs: &[ProcName],
) -> Option<Cause>
    ensures { option_map cause_of result
        ≡ unread users.now (process_of caller.now) (class_by jobs.now class.now) }
{
    match class {
        Class::Private(owner) if caller.user != *owner => Some(Cause::IsPrivate(*owner)),
        Class::Scratch(owner, _) if caller.user != *owner => Some(Cause::IsScratch(*owner)),
        Class::Scratch(_, _) => needed_job(caller, jobs),
        Class::Group(group) if !is_member(users, caller.user, *group) => Some(Cause::IsGrouped(
            *group,
        )),
        _ => None,
    }
}

/// Returns why a process may not write what is of a class with these jobs.
pub(crate) fn unwritten(
    users: &UserTable,
    caller: &Caller,
    class: &Class,
    jobs: &[ProcName],
) -> Option<Cause>
    ensures { option_map cause_of result
        ≡ unwritten users.now (process_of caller.now) (class_by jobs.now class.now) }
{
    match class {
        Class::Readable(owner) if caller.user != *owner => Some(Cause::IsReadable(*owner)),
        _ => match unread(users, caller, class, jobs) {
            Some(cause) => Some(cause),
            None => left_job(caller, class, jobs),
        },
    }
}

/// Returns the first of these jobs that the process neither is in nor holds, as a cause.
fn needed_job(caller: &Caller, jobs: &[ProcName]) -> Option<Cause>
    ensures { option_map cause_of result
        ≡ option_map NeedsJob (unknown (process_of caller.now) jobs.now) }
{
    match unknown(caller, jobs) {
        Some(job) => Some(Cause::NeedsJob(job)),
        None => None,
    }
}

/// Returns the first job of the process of which a class with these jobs is not, as a cause.
fn left_job(caller: &Caller, class: &Class, jobs: &[ProcName]) -> Option<Cause>
    ensures { option_map cause_of result
        ≡ option_map LeavesJob (left (process_of caller.now) (jobs_for jobs.now class.now)) }
{
    let own = match class {
        Class::Scratch(_, _) => jobs,
        _ => &[],
    };
    match left(caller, own) {
        Some(job) => Some(Cause::LeavesJob(job)),
        None => None,
    }
}

/// Returns the first of these jobs that the process neither is in nor holds.
pub(crate) fn unknown(caller: &Caller, jobs: &[ProcName]) -> Option<ProcName>
    ensures { result ≡ unknown (process_of caller.now) jobs.now }
{
    for job in jobs {
        if !caller.knows(job) {
            return Some(*job);
        }
    }
    None
}

/// Returns the first job of the process that is none of these.
fn left(caller: &Caller, jobs: &[ProcName]) -> Option<ProcName>
    ensures { result ≡ left (process_of caller.now) jobs.now }
{
    let chain = caller.chain.as_slice();
    for job in chain {
        if !has(jobs, job) {
            return Some(*job);
        }
    }
    None
}

/// Checks whether a job is one of these.
pub(crate) fn has(jobs: &[ProcName], job: &ProcName) -> bool
    ensures { result ≡ has jobs.now job.now }
{
    jobs.iter().any(|it| *job == *it)
}

/// Returns the innermost job that a process is in.
pub(crate) fn innermost(caller: &Caller) -> Option<ProcName>
    ensures { result ≡ innermost (process_of caller.now) }
{
    match caller.chain.as_slice() {
        [.., job] => Some(*job),
        [] => None,
    }
}

/// Checks whether a user is a member of a group.
pub(crate) fn is_member(users: &UserTable, user: Name, group: Name) -> bool
    ensures { result ≡ is_member users.now user group }
{
    let groups = users.groups();
    groups.iter().any(|it| it.name() == group && it.has(user))
}

/// Returns the name of nobody.
pub(crate) fn nobody() -> Name
    ensures { result ≡ nobody }
{
    read_name(b"nobody".as_slice()).unwrap()
}
