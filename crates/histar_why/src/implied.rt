//! What a refusal implies by itself of its reason, whoever made the call.
ghost use Rattle.std.specs.Prelude.{◌≡◌, ◌≤◌, length};
ghost use Rattle.histar_flat.specs.Words.{most_names};
ghost use Rattle.histar_syscall.specs.KernelModel.{state};
ghost use Rattle.histar_why.specs.Implied.{FindsMissing, ImpliesErrno, ImpliesReason, are_free_to, asks_child};
ghost use Rattle.histar_why.specs.Implied.{is_free_at, taken};

use crate::asked::{Asked, Part, ProcessPart};
use crate::names::Reader;
use crate::reasons::PathReason;
use histar_flat::{Errno, Name, Reply};
use histar_label::LabelStore;
use histar_layout::is_in_job;
use histar_programs::home_at;
use histar_readout::resolve::resolve_names;

/// A reason that follows from a refusal, with no look at who called.
#[derive(Clone, Copy)]
pub(crate) enum Implied {
    /// It is a reason of what is at the path.
    OfPath(PathReason),
    /// Nothing is at the path on the way that has so many names.
    IsMissing(usize),
    /// The process that is named is no child of the caller.
    IsNoChild,
}

/// Returns why a call was refused, where the refusal implies it together with the paths and the
/// processes that are there.
pub(crate) fn implied_reason<S: LabelStore + Drop>(
    reader: &Reader<S>,
    asked: &Asked,
    reply: &Reply,
) -> Option<Implied>
    ensures { ImpliesReason (state reader.now.kernel.now) reader.now.roots.now asked.now reply.now
        result }
{
    match reply {
        Reply::Refused(errno) => implied_by(reader, asked, *errno),
        _ => None,
    }
}

/// Returns why a call was refused like this, where that implies it.
fn implied_by<S: LabelStore + Drop>(
    reader: &Reader<S>,
    asked: &Asked,
    errno: Errno,
) -> Option<Implied>
    ensures { ImpliesErrno (state reader.now.kernel.now) reader.now.roots.now asked.now errno result }
{
    match errno {
        Errno::EEXIST => Some(Implied::OfPath(taken(asked))),
        Errno::EISDIR => Some(Implied::OfPath(PathReason::HasDirectory)),
        Errno::EBUSY => Some(Implied::OfPath(PathReason::RootStays)),
        Errno::ENOENT => match missing(reader, asked.path.names()) {
            Some(depth) => Some(Implied::IsMissing(depth)),
            None => None,
        },
        Errno::EACCES => no_child(reader, asked),
        _ => None,
    }
}

/// Returns that something is at the path, or beside it, which a call is refused for.
fn taken(asked: &Asked) -> PathReason
    ensures { result ≡ taken asked.now }
{
    match asked.beside {
        Some(name) => PathReason::IsTakenBeside(name),
        None => PathReason::IsTaken,
    }
}

/// Returns how many names the path on the way to the path of these names has that is missing: the
/// one below the last directory that is there. Where the path is `/` none is.
fn missing<S: LabelStore + Drop>(reader: &Reader<S>, names: &[Name]) -> Option<usize>
    requires { length names.now ≤ most_names }
    ensures { FindsMissing (state reader.now.kernel.now) reader.now.roots.now names.now result }
{
    let [_, directory @ ..] = names else {
        return None;
    };
    if resolve_names(reader.kernel, reader.roots, directory).is_some() {
        Some(names.len())
    } else {
        missing(reader, directory)
    }
}

/// Returns that the process that is named is no child of the caller, where a call needs that and
/// every process may see the one that is named.
fn no_child<S: LabelStore + Drop>(reader: &Reader<S>, asked: &Asked) -> Option<Implied>
    ensures { ImpliesErrno (state reader.now.kernel.now) reader.now.roots.now asked.now
        Errno.EACCES result }
{
    if asks_child(asked) && are_free_to(reader, asked.other.numbers()) {
        Some(Implied::IsNoChild)
    } else {
        None
    }
}

/// Checks whether a call needs the process that it names to be a child of its own.
fn asks_child(asked: &Asked) -> bool
    ensures { result ≡ asks_child asked.now.parts.now }
{
    asked.parts.iter().any(|part| matches!(part, Part::OfProcess(ProcessPart::IsChild)))
}

/// Checks whether the process of these numbers and all above it but process 0 are there and in no
/// job.
fn are_free_to<S: LabelStore + Drop>(reader: &Reader<S>, numbers: &[u8]) -> bool
    ensures { result ≡ are_free_to (state reader.now.kernel.now) reader.now.roots.now.home
        numbers.now }
{
    let [_, above @ ..] = numbers else {
        return true;
    };
    are_free_to(reader, above) && is_free_at(reader, numbers)
}

/// Checks whether the process of these numbers is there and in no job.
fn is_free_at<S: LabelStore + Drop>(reader: &Reader<S>, numbers: &[u8]) -> bool
    ensures { result ≡ is_free_at (state reader.now.kernel.now) reader.now.roots.now.home
        numbers.now }
{
    let Some(home) = home_at(reader.kernel, reader.roots.home, numbers) else {
        return false;
    };
    match reader.kernel.label(home.container) {
        Some(outer) => !is_in_job(outer),
        None => false,
    }
}
