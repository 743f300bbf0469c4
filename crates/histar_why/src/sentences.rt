//! The sentences of reasons, and the lines that have them.
ghost use Rattle.std.specs.Prelude.{◌≡◌, ◌++◌, codes, OnOk};
ghost use Rattle.std.specs.Fmt.{decimal};
ghost use Rattle.histar_flat.specs.Texts.{path_text, process_text};
ghost use Rattle.histar_reasons.specs.Causes.{innermost};
ghost use Rattle.histar_reasons.specs.Sentences.{absence_text, cause_text, counted, job_text};
ghost use Rattle.histar_reasons.specs.Sentences.{unknown_text, who_text, why_text};
ghost use Rattle.histar_why.specs.Absences.{absence_of};
ghost use Rattle.histar_why.specs.Causes.{cause_of};
ghost use Rattle.histar_why.specs.Names.{process_of};
ghost use Rattle.histar_reasons.specs.Reasons.Reason.{MayNotRead, MayNotWrite};
ghost use Rattle.histar_why.specs.Barriers.{barrier_of};
ghost use Rattle.histar_why.specs.Reasons.{process_reason_of, reason_of};
ghost use Rattle.histar_why.specs.Implied.{path_words, implied_words};

use crate::absences::Absence;
use crate::asked::Asked;
use crate::causes::{Cause, innermost};
use crate::implied::Implied;
use crate::names::Caller;
use crate::reasons::{PathReason, ProcessReason, Reason, above, beside};
use crate::ways::{Barrier, Obstacle, path_at};
use histar_flat::{Name, Path, ProcName};
use histar_texts::{push_path, push_process};
use itoa::Buffer;
use std::alloc::AllocError;

/// Adds the sentence of an absence.
pub(crate) fn push_absence(
    text: &mut Vec<u8>,
    process: &ProcName,
    absence: &Absence,
) -> Result<(), AllocError>
    ensures { OnOk result (text.new.items
        ≡ text.old.items ++ absence_text process.now (absence_of absence.now)) }
{
    match absence {
        Absence::HasExited => push_about_process(text, "", process, " has exited"),
        Absence::WasNeverStarted => push_about_process(text, "", process, " was never started"),
        Absence::WasKilled(killed) => push_about_process(text, "", killed, " was killed"),
    }
}

/// Adds the sentence of why a call of this process was refused.
pub(crate) fn push_reason(
    text: &mut Vec<u8>,
    asked: &Asked,
    caller: &Caller,
    reason: &Reason,
) -> Result<(), AllocError>
    ensures { OnOk result (text.new.items ≡ text.old.items
        ++ why_text asked.now.process (process_of caller.now) (reason_of asked.now.path reason.now)) }
{
    let me = &asked.process;
    let path = &asked.path;
    match reason {
        Reason::CannotWalk(barrier) => push_barrier(text, asked, caller, barrier),
        Reason::MayNotRead(cause) => push_unread(text, me, caller, path, cause),
        Reason::MayNotWrite(cause) => push_unwritten(text, me, caller, path, cause),
        Reason::MayNotWriteAbove(cause) => push_unwritten(text, me, caller, &above(path), cause),
        Reason::OfPath(reason) => push_path_reason(text, path, reason),
        Reason::OfProcess(reason) => push_process_reason(text, me, caller, reason),
    }
}

/// Adds the sentence of what stops a walk.
fn push_barrier(
    text: &mut Vec<u8>,
    asked: &Asked,
    caller: &Caller,
    barrier: &Barrier,
) -> Result<(), AllocError>
    ensures { OnOk result (text.new.items ≡ text.old.items
        ++ why_text asked.now.process (process_of caller.now)
        (barrier_of asked.now.path barrier.now)) }
{
    let path = path_at(asked.path.names(), barrier.depth);
    match &barrier.what {
        Obstacle::IsMissing => push_about_path(text, "there is no ", &path, ""),
        Obstacle::HasFile => push_about_path(text, "", &path, " is a file"),
        Obstacle::MayNotRead(cause) => push_unread(text, &asked.process, caller, &path, cause),
    }
}

/// Adds that a process may not read what is at a path.
fn push_unread(
    text: &mut Vec<u8>,
    me: &ProcName,
    caller: &Caller,
    path: &Path,
    cause: &Cause,
) -> Result<(), AllocError>
    ensures { OnOk result (text.new.items ≡ text.old.items
        ++ why_text me.now (process_of caller.now) (MayNotRead path.now (cause_of cause.now))) }
{
    push_who(text, me, caller)?;
    push_about_path(text, " may not read ", path, ": ")?;
    push_cause(text, me, caller, cause)
}

/// Adds that a process may not write what is at a path.
fn push_unwritten(
    text: &mut Vec<u8>,
    me: &ProcName,
    caller: &Caller,
    path: &Path,
    cause: &Cause,
) -> Result<(), AllocError>
    ensures { OnOk result (text.new.items ≡ text.old.items
        ++ why_text me.now (process_of caller.now) (MayNotWrite path.now (cause_of cause.now))) }
{
    push_who(text, me, caller)?;
    push_about_path(text, " may not write ", path, ": ")?;
    push_cause(text, me, caller, cause)
}

/// Adds the sentence of a reason that a refusal implies by itself.
pub(crate) fn push_implied(
    text: &mut Vec<u8>,
    asked: &Asked,
    implied: &Implied,
) -> Result<(), AllocError>
    ensures { OnOk result (text.new.items ≡ text.old.items ++ implied_words asked.now implied.now) }
{
    match implied {
        Implied::OfPath(reason) => push_path_reason(text, &asked.path, reason),
        Implied::IsMissing(depth) if *depth == asked.path.depth() => push_missing(
            text,
            &asked.path,
        ),
        Implied::IsMissing(depth) => push_missing(text, &path_at(asked.path.names(), *depth)),
        Implied::IsNoChild => push_no_child(text, &asked.process, &asked.other),
    }
}

/// Adds that nothing is at a path.
fn push_missing(text: &mut Vec<u8>, path: &Path) -> Result<(), AllocError>
    ensures { OnOk result (text.new.items ≡ text.old.items
        ++ (codes "there is no " ++ path_text path.now)) }
{
    push_str(text, "there is no ")?;
    push_path(*text.allocator(), text, path)
}

/// Adds the sentence of a reason that is of what is at a path, whoever calls.
fn push_path_reason(text: &mut Vec<u8>, path: &Path, reason: &PathReason) -> Result<(), AllocError>
    ensures { OnOk result (text.new.items
        ≡ text.old.items ++ path_words path.now reason.now) }
{
    match reason {
        PathReason::IsMissing => push_missing(text, path),
        PathReason::HasFile => push_about_path(text, "", path, " is a file"),
        PathReason::HasDirectory => push_about_path(text, "", path, " is a directory"),
        PathReason::IsTaken => push_taken(text, path),
        PathReason::IsTakenBeside(name) => push_taken(text, &beside(path, *name)),
        PathReason::RootStays => push_str(text, "/ can be neither removed nor renamed"),
        PathReason::IsFull(count) => {
            push_entries(text, &above(path), *count, ", and 64 is the most")
        }
        PathReason::IsNotEmpty(count) => push_entries(text, path, *count, ""),
        PathReason::IsTooLong(bytes) => push_too_long(text, path, *bytes),
    }
}

/// Adds that something is at a path.
fn push_taken(text: &mut Vec<u8>, path: &Path) -> Result<(), AllocError>
    ensures { OnOk result (text.new.items ≡ text.old.items
        ++ (path_text path.now ++ codes " is there already")) }
{
    push_path(*text.allocator(), text, path)?;
    push_str(text, " is there already")
}

/// Adds the sentence of a reason that is of no path.
fn push_process_reason(
    text: &mut Vec<u8>,
    me: &ProcName,
    caller: &Caller,
    reason: &ProcessReason,
) -> Result<(), AllocError>
    ensures { OnOk result (text.new.items
        ≡ text.old.items ++ why_text me.now (process_of caller.now)
        (process_reason_of reason.now)) }
{
    let user = &caller.user;
    match reason {
        ProcessReason::MakesOnlyOpen => {
            push_about_name(text, "user ", user, " makes only what is open")
        }
        ProcessReason::StartsNoJob => push_about_name(text, "user ", user, " starts no job"),
        ProcessReason::IsNoMember(group) => push_no_member(text, user, group),
        ProcessReason::HadChildren(count) => push_children(text, me, *count),
        ProcessReason::HasNumbers(count) => push_numbers(text, me, *count),
        ProcessReason::NoProcess(name) => {
            push_about_process(text, "there is no process ", name, "")
        }
        ProcessReason::IsUnseen(name, job) => push_unseen(text, me, caller, name, job),
        ProcessReason::IsNoChild(name) => push_no_child(text, me, name),
        ProcessReason::NoUser(name) => push_about_name(text, "there is no user ", name, ""),
        ProcessReason::WrongPassword(name) => {
            push_about_name(text, "that is not the password of ", name, "")
        }
        ProcessReason::IsInJob(job) => push_in_job(text, me, job),
    }
}

/// Adds that a user is in no group of this name.
fn push_no_member(text: &mut Vec<u8>, user: &Name, group: &Name) -> Result<(), AllocError>
    ensures { OnOk result (text.new.items ≡ text.old.items
        ++ (codes "user " ++ user.now ++ codes " is not in group " ++ group.now)) }
{
    push_about_name(text, "user ", user, " is not in group ")?;
    text.extend_from_slice(group.as_bytes())
}

/// Adds that a process has had too many children.
fn push_children(text: &mut Vec<u8>, me: &ProcName, count: u8) -> Result<(), AllocError>
    ensures { OnOk result (text.new.items ≡ text.old.items
        ++ (process_text me.now ++ codes " has had " ++ decimal count
        ++ codes " children, and 64 is the most")) }
{
    push_about_process(text, "", me, " has had ")?;
    push_count(text, u128::from(count), " children, and 64 is the most")
}

/// Adds that the name of a process has too many numbers.
fn push_numbers(text: &mut Vec<u8>, me: &ProcName, count: usize) -> Result<(), AllocError>
    ensures { OnOk result (text.new.items ≡ text.old.items
        ++ (codes "the name " ++ process_text me.now ++ codes " has " ++ decimal count
        ++ codes " numbers, and 8 is the most")) }
{
    push_about_process(text, "the name ", me, " has ")?;
    push_count(text, count as u128, " numbers, and 8 is the most")
}

/// Adds that a process doesn't see another one, for it doesn't know the job.
fn push_unseen(
    text: &mut Vec<u8>,
    me: &ProcName,
    caller: &Caller,
    name: &ProcName,
    job: &ProcName,
) -> Result<(), AllocError>
    ensures { OnOk result (text.new.items ≡ text.old.items
        ++ (who_text me.now (process_of caller.now) ++ codes " does not see "
        ++ process_text name.now ++ codes ": " ++ unknown_text me.now job.now)) }
{
    push_who(text, me, caller)?;
    push_about_process(text, " does not see ", name, ": ")?;
    push_unknown(text, me, job)
}

/// Adds that one process is no child of another.
fn push_no_child(text: &mut Vec<u8>, me: &ProcName, name: &ProcName) -> Result<(), AllocError>
    ensures { OnOk result (text.new.items ≡ text.old.items
        ++ (process_text name.now ++ codes " is no child of " ++ process_text me.now)) }
{
    push_process(*text.allocator(), text, name)?;
    push_str(text, " is no child of ")?;
    push_process(*text.allocator(), text, me)
}

/// Adds that a process may not log in, which is in a job.
fn push_in_job(text: &mut Vec<u8>, me: &ProcName, job: &ProcName) -> Result<(), AllocError>
    ensures { OnOk result (text.new.items ≡ text.old.items
        ++ (process_text me.now ++ codes " is in job " ++ process_text job.now
        ++ codes ", and no process in a job logs in")) }
{
    push_about_process(text, "", me, " is in job ")?;
    push_about_process(text, "", job, ", and no process in a job logs in")
}

/// Adds the text of a cause.
fn push_cause(
    text: &mut Vec<u8>,
    me: &ProcName,
    caller: &Caller,
    cause: &Cause,
) -> Result<(), AllocError>
    ensures { OnOk result (text.new.items
        ≡ text.old.items ++ cause_text me.now (process_of caller.now) (cause_of cause.now)) }
{
    match cause {
        Cause::IsPrivate(owner) => push_named(text, "it is private, of ", owner),
        Cause::IsReadable(owner) => {
            push_about_name(text, "it is readable, and ", owner, " alone writes it")
        }
        Cause::IsScratch(owner) => push_named(text, "it is scratch, of ", owner),
        Cause::IsGrouped(group) => {
            push_about_name(text, "it is of group ", group, ", which user ")?;
            push_about_name(text, "", &caller.user, " is not in")
        }
        Cause::NeedsJob(job) => push_unknown(text, me, job),
        Cause::LeavesJob(job) => {
            push_about_process(text, "it is not of job ", job, ", which ")?;
            push_about_process(text, "", me, " is in")
        }
    }
}

/// Adds that a process doesn't know a job.
fn push_unknown(text: &mut Vec<u8>, me: &ProcName, job: &ProcName) -> Result<(), AllocError>
    ensures { OnOk result (text.new.items ≡ text.old.items ++ unknown_text me.now job.now) }
{
    push_about_process(text, "", me, " neither is in job ")?;
    push_about_process(text, "", job, " nor holds it")
}

/// Adds a process, with its user and its innermost job.
fn push_who(text: &mut Vec<u8>, me: &ProcName, caller: &Caller) -> Result<(), AllocError>
    ensures { OnOk result (text.new.items
        ≡ text.old.items ++ who_text me.now (process_of caller.now)) }
{
    push_process(*text.allocator(), text, me)?;
    push_str(text, " (")?;
    text.extend_from_slice(caller.user.as_bytes())?;
    push_job(text, caller)?;
    text.push(b')')?;
    Ok(())
}

/// Adds the innermost job of a process, if it is in one.
fn push_job(text: &mut Vec<u8>, caller: &Caller) -> Result<(), AllocError>
    ensures { OnOk result (text.new.items
        ≡ text.old.items ++ job_text (innermost (process_of caller.now))) }
{
    match innermost(caller) {
        None => Ok(()),
        Some(job) => push_about_process(text, ", in job ", &job, ""),
    }
}

/// Adds how many entries a directory has.
fn push_entries(
    text: &mut Vec<u8>,
    path: &Path,
    count: usize,
    after: &str,
) -> Result<(), AllocError>
    ensures { OnOk result (text.new.items ≡ text.old.items
        ++ (path_text path.now ++ codes " has " ++ counted count (codes "entry") (codes "entries")
        ++ after.now)) }
{
    push_about_path(text, "", path, " has ")?;
    push_count(
        text,
        count as u128,
        if count == 1 { " entry" } else { " entries" },
    )?;
    push_str(text, after)
}

/// Adds that a file would have too many bytes.
fn push_too_long(text: &mut Vec<u8>, path: &Path, bytes: u128) -> Result<(), AllocError>
    ensures { OnOk result (text.new.items ≡ text.old.items
        ++ (path_text path.now ++ codes " would have " ++ decimal bytes
        ++ codes " bytes, and 4096 is the most")) }
{
    push_about_path(text, "", path, " would have ")?;
    push_count(text, bytes, " bytes, and 4096 is the most")
}

/// Adds a path between two texts.
fn push_about_path(
    text: &mut Vec<u8>,
    before: &str,
    path: &Path,
    after: &str,
) -> Result<(), AllocError>
    ensures { OnOk result (text.new.items
        ≡ text.old.items ++ (before.now ++ path_text path.now ++ after.now)) }
{
    push_str(text, before)?;
    push_path(*text.allocator(), text, path)?;
    push_str(text, after)
}

/// Adds a process between two texts.
fn push_about_process(
    text: &mut Vec<u8>,
    before: &str,
    process: &ProcName,
    after: &str,
) -> Result<(), AllocError>
    ensures { OnOk result (text.new.items
        ≡ text.old.items ++ (before.now ++ process_text process.now ++ after.now)) }
{
    push_str(text, before)?;
    push_process(*text.allocator(), text, process)?;
    push_str(text, after)
}

/// Adds a name between two texts.
fn push_about_name(
    text: &mut Vec<u8>,
    before: &str,
    name: &Name,
    after: &str,
) -> Result<(), AllocError>
    ensures { OnOk result (text.new.items ≡ text.old.items ++ (before.now ++ name.now
        ++ after.now)) }
{
    push_str(text, before)?;
    text.extend_from_slice(name.as_bytes())?;
    push_str(text, after)
}

/// Adds a name after a text.
fn push_named(text: &mut Vec<u8>, before: &str, name: &Name) -> Result<(), AllocError>
    ensures { OnOk result (text.new.items ≡ text.old.items ++ (before.now ++ name.now)) }
{
    push_str(text, before)?;
    text.extend_from_slice(name.as_bytes())
}

/// Adds a number before a text.
fn push_count(text: &mut Vec<u8>, count: u128, after: &str) -> Result<(), AllocError>
    ensures { OnOk result (text.new.items ≡ text.old.items ++ (decimal count ++ after.now)) }
{
    text.extend_from_slice(Buffer::new().format(count).as_bytes())?;
    push_str(text, after)
}

/// Adds a text.
fn push_str(text: &mut Vec<u8>, more: &str) -> Result<(), AllocError>
    ensures { OnOk result (text.new.items ≡ text.old.items ++ more.now) }
{
    text.extend_from_slice(more.as_bytes())
}
