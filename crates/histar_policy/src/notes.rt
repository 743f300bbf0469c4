//! What a call line says of processes, of passwords, and of what it made or wrote.
ghost use Rattle.std.specs.Prelude.{◌≡◌, IfOk};
ghost use Rattle.histar_policy.specs.Answers.{IsEvent};
ghost use Rattle.histar_policy.specs.Notes.{asked_of, child_event, is_group_mode, refusal_event};

use crate::takers::{Creation, made_event, wrote_event};
use histar_flat::{Errno, Mode, Name, OwnedPath, Path, ProcName, Reply, UnixCall};
use histar_label::LabelStore;
use histar_shell::Machine;
use std::alloc::{AllocError, Global};

/// What matters of a call, whatever its reply.
#[derive(Drop)]
pub enum Asked {
    /// It logs in as this user.
    LogsIn(Name),
    /// It starts a job.
    Wraps,
    /// It makes a file or a directory at this path, and whether that is a file for a group.
    Makes(Path, bool),
    /// It writes the file at this path.
    Writes(Path),
    /// It does something else.
    Other,
}

/// What a call line says of processes, of passwords, and of what it made or wrote.
#[derive(Drop)]
pub enum Event {
    /// Nothing.
    Nothing,
    /// The process of the call doesn't run.
    IsGone,
    /// This process was started, in the jobs of its parent.
    Starts(ProcName),
    /// This process was started, in a job of its own.
    StartsJob(ProcName),
    /// The password was not that of this user.
    WrongPassword(Name),
    /// A file or a directory was made.
    Made(Creation),
    /// A process of this user wrote the file at this path.
    Wrote(Name, OwnedPath),
}

/// A call line that was answered.
#[derive(Drop)]
pub struct Note {
    /// The number of the line.
    pub line: u32,
    /// The process that made the call.
    pub process: ProcName,
    pub event: Event,
}

/// Returns what matters of a call.
pub(crate) fn asked_of(call: &UnixCall) -> Asked
    ensures { result ≡ asked_of call.now }
{
    match call {
        UnixCall::Login(user, _) => Asked::LogsIn(*user),
        UnixCall::Wrap(_) => Asked::Wraps,
        UnixCall::Create(path, mode) => Asked::Makes(path.path(), is_group(mode)),
        UnixCall::Mkdir(path, _) => Asked::Makes(path.path(), false),
        UnixCall::Write(path, _) | UnixCall::Append(path, _) => Asked::Writes(path.path()),
        _ => Asked::Other,
    }
}

/// Checks whether a mode is for a group.
fn is_group(mode: &Mode) -> bool
    ensures { result ≡ is_group_mode mode.now }
{
    match mode {
        Mode::Group(_) => true,
        _ => false,
    }
}

/// Returns what a call says that started a child.
fn child_event(asked: &Asked, child: &ProcName) -> Event
    ensures { result ≡ child_event asked.now child.now }
{
    match asked {
        Asked::Wraps => Event::StartsJob(*child),
        _ => Event::Starts(*child),
    }
}

/// Returns what a refused call says.
fn refusal_event(asked: &Asked, errno: &Errno) -> Event
    ensures { result ≡ refusal_event asked.now errno.now }
{
    match (asked, errno) {
        (Asked::LogsIn(user), Errno::EAUTH) => Event::WrongPassword(*user),
        _ => Event::Nothing,
    }
}

/// Returns what a call of a process and its reply say, on the machine after the call.
pub(crate) fn event_of<S: LabelStore + Drop>(
    alloc: Global,
    machine: &Machine<S>,
    process: &ProcName,
    asked: &Asked,
    reply: &Reply,
) -> Result<Event, AllocError>
    ensures { IfOk result (IsEvent machine.now process.now asked.now reply.now) }
{
    match (reply, asked) {
        (Reply::Gone, _) => Ok(Event::IsGone),
        (Reply::Child(child), _) => Ok(child_event(asked, child)),
        (Reply::Refused(errno), _) => Ok(refusal_event(asked, errno)),
        (Reply::Done, Asked::Makes(path, shared)) => {
            made_event(alloc, machine, process, path, *shared)
        }
        (Reply::Done, Asked::Writes(path)) => wrote_event(alloc, machine, process, path),
        _ => Ok(Event::Nothing),
    }
}
