//! How a call ends before it has made all its raw calls.
ghost use Rattle.std.specs.Prelude.{◌≡◌};
ghost use Rattle.histar_programs.specs.Refusals.{errno_of, write_errno_of, or_call_error, settled, call_error_of, call_error_with};

use histar_flat::{Errno, Reply};
use histar_layout::NotAStatus;
use histar_syscall::{Denied, Refusal};
use std::alloc::{AllocError, AllocFailed};

/// A call ends without a reply: memory ran out, or the kernel denied what has no errno. The machine makes
/// no more calls then. On a machine that represents a flat state, only lack of memory and a counter at its
/// greatest value do this. Bytes that a job forges in its own segments end its calls by an errno instead.
#[derive(Clone, Copy, Debug, PartialEq, Eq)]
pub struct Stopped;

impl From<AllocError> for Stopped {
    fn from(_error: AllocError) -> Self {
        Stopped
    }
}

impl<T: Drop> From<AllocFailed<T>> for Stopped {
    fn from(_error: AllocFailed<T>) -> Self {
        Stopped
    }
}

/// Why a call ends before it has made all its raw calls.
#[derive(Clone, Copy, Debug, PartialEq, Eq)]
pub enum CallError {
    /// It is refused.
    Refused(Errno),
    /// It ends without a reply.
    Stopped,
}

impl From<Errno> for CallError {
    ghost use Rattle.std.specs.Prelude.{◌≡◌};
    ghost use Rattle.histar_programs.specs.declared.call_error.CallError.TheVariants.{Refused};

    ghost from_gives = { λ errno e. e ≡ Refused errno };

    fn from(errno: Errno) -> Self {
        CallError::Refused(errno)
    }
}

/// A denial that has no errno stops the call. On a machine that represents a flat state the objects that
/// the library's calls name are there, but an entry that a job has forged may lead to what isn't there: that
/// is ENOENT, as if there were no such entry. A process may so remove its own thread in the midst of a call:
/// that is ESRCH. A write has `written` for its own errno.
impl From<Refusal> for CallError {
    ghost use Rattle.std.specs.Prelude.{◌≡◌};
    ghost use Rattle.histar_programs.specs.Refusals.{errno_of, call_error_of};

    ghost from_gives = { λ refusal e. e ≡ call_error_of errno_of refusal };

    fn from(refusal: Refusal) -> Self {
        match refusal {
            Refusal::Denied(denied) => call_error_with(errno_of(denied)),
            Refusal::OutOfMemory => CallError::Stopped,
        }
    }
}

impl From<AllocError> for CallError {
    ghost use Rattle.std.specs.Prelude.{◌≡◌};
    ghost use Rattle.histar_programs.specs.declared.call_error.CallError.TheVariants.{Stopped};

    ghost from_gives = { λ _ e. e ≡ Stopped };

    fn from(_error: AllocError) -> Self {
        CallError::Stopped
    }
}

/// The bytes of a process segment are no status, so there is no process. A machine that represents a flat
/// state has no such segment, but a job may write one of its own.
impl From<NotAStatus> for CallError {
    ghost use Rattle.std.specs.Prelude.{◌≡◌};
    ghost use Rattle.histar_flat.specs.declared.replies.Errno.TheVariants.{ESRCH};
    ghost use Rattle.histar_programs.specs.declared.call_error.CallError.TheVariants.{Refused};

    ghost from_gives = { λ _ e. e ≡ Refused ESRCH };

    fn from(_error: NotAStatus) -> Self {
        CallError::Refused(Errno::ESRCH)
    }
}

impl<T: Drop> From<AllocFailed<T>> for CallError {
    ghost use Rattle.std.specs.Prelude.{◌≡◌};
    ghost use Rattle.histar_programs.specs.declared.call_error.CallError.TheVariants.{Stopped};

    ghost from_gives = { λ _ e. e ≡ Stopped };

    fn from(_error: AllocFailed<T>) -> Self {
        CallError::Stopped
    }
}

/// Returns the answer of a write, or how its refusal ends the call: EFBIG where the segment would have
/// more bytes than it may.
pub fn written(answer: Result<(), Refusal>) -> Result<(), CallError>
    ensures { result ≡ or_call_error write_errno_of answer }
{
    match answer {
        Err(Refusal::Denied(Denied::TooBig)) => Err(CallError::Refused(Errno::EFBIG)),
        Err(refusal) => Err(CallError::from(refusal)),
        Ok(()) => Ok(()),
    }
}

/// Returns the reply of a call that ended in this way.
pub fn settle(ended: Result<Reply, CallError>) -> Result<Reply, Stopped>
    ensures { result ≡ settled ended }
{
    match ended {
        Ok(reply) => Ok(reply),
        Err(CallError::Refused(errno)) => Ok(Reply::Refused(errno)),
        Err(CallError::Stopped) => Err(Stopped),
    }
}

/// Returns how a denial with this errno ends a call: the call is refused, or stops if there is no errno.
fn call_error_with(errno: Option<Errno>) -> CallError
    ensures { result ≡ call_error_with errno }
{
    match errno {
        Some(errno) => CallError::Refused(errno),
        None => CallError::Stopped,
    }
}

/// Returns the errno of a denial of a raw call other than a write, if it has one.
fn errno_of(denied: Denied) -> Option<Errno>
    ensures { result ≡ errno_of denied }
{
    match denied {
        Denied::Observe | Denied::Modify | Denied::Gate => Some(Errno::EACCES),
        Denied::Range => Some(Errno::EPERM),
        Denied::NoEntry | Denied::BadKind => Some(Errno::ENOENT),
        Denied::NoThread => Some(Errno::ESRCH),
        Denied::TooBig => None,
    }
}
