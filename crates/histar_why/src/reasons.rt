//! Why a call is refused: the first part of what it needs that is not met.
ghost use Rattle.std.specs.Prelude.{◌≡◌, ◌==◌, ◌<◌, ◌∷◌, length, is_some, nat_le, nat_lt};
ghost use Rattle.std.specs.Prelude.{option_map};
ghost use Rattle.histar_base.specs.Refusals.{unless};
ghost use Rattle.histar_flat.specs.Words.{most_names};
ghost use Rattle.histar_flat.specs.Classes.{class_made};
ghost use Rattle.histar_flat.specs.Needs.{is_child, most_bytes, most_entries};
ghost use Rattle.histar_flat.specs.PathOrder.{parent};
ghost use Rattle.histar_reasons.specs.Causes.{innermost};
ghost use Rattle.histar_reasons.specs.Reasons.{unmade};
ghost use Rattle.histar_reasons.specs.Reasons.Reason.{IsInJob};
ghost use Rattle.histar_why.specs.declared.asked.Part.TheVariants.{AbsentBeside, MayRead, MayWrite};
ghost use Rattle.histar_why.specs.declared.asked.Part.TheVariants.{MayWriteAbove, Walk};
ghost use Rattle.histar_why.specs.declared.asked.ProcessPart.TheVariants.{HasPassword, IsUser};
ghost use Rattle.histar_why.specs.declared.reasons.PathReason.TheVariants as PathReason;
ghost use Rattle.histar_why.specs.Causes.{cause_of};
ghost use Rattle.histar_why.specs.Names.{process_of};
ghost use Rattle.histar_why.specs.Reasons.{IsRootReason, bytes_of, bytes_then, first_reason};
ghost use Rattle.histar_why.specs.Reasons.{has_directory, has_file, part_reason, path_reason};
ghost use Rattle.histar_why.specs.Reasons.{path_reason_of, process_reason, process_reason_of};
ghost use Rattle.histar_why.specs.Reasons.{reason_of, unread_in, unwritten_in};

use crate::asked::{Kept, Part, ProcessPart};
use crate::causes::{Cause, innermost, is_member, nobody};
use crate::names::Caller;
use crate::views::View;
use crate::ways::{Barrier, Spot, path_of};
use histar_flat::{Errno, MOST_NUMBERS, Mode, Name, Path, ProcName};
use histar_layout::{MOST_ENTRIES, UserTable};

/// The most bytes of a file.
const MOST_BYTES: u128 = 4_096;

/// The most children that are born to a process.
const MOST_CHILDREN: u8 = 64;

/// Why a call of a process that runs is refused. It has no path: what it says of paths is of the
/// path that the call names, and of those above it.
#[derive(Clone, Copy)]
pub(crate) enum Reason {
    /// The process can't walk to the path.
    CannotWalk(Barrier),
    /// It may not read what is at the path; may not write it; may not write the directory of it.
    MayNotRead(Cause),
    MayNotWrite(Cause),
    MayNotWriteAbove(Cause),
    /// It is a reason of what is at the path, whoever calls.
    OfPath(PathReason),
    /// It is a reason of the process.
    OfProcess(ProcessReason),
}

/// Why a call is refused by what is at its path, whoever makes it.
#[derive(Clone, Copy)]
pub(crate) enum PathReason {
    /// Nothing is at the path; a file is; a directory is; something is.
    IsMissing,
    HasFile,
    HasDirectory,
    IsTaken,
    /// Something in the directory of the path has this name.
    IsTakenBeside(Name),
    /// `/` is neither removed nor renamed.
    RootStays,
    /// The directory of the path has this many entries, and no room.
    IsFull(usize),
    /// The directory has this many entries.
    IsNotEmpty(usize),
    /// The file would have this many bytes.
    IsTooLong(u128),
}

/// Why a call of a process that runs is refused, whatever is at its path.
#[derive(Clone, Copy)]
pub(crate) enum ProcessReason {
    /// Nobody makes only what is open.
    MakesOnlyOpen,
    /// The user is not in the group.
    IsNoMember(Name),
    /// This many children were born to the process.
    HadChildren(u8),
    /// The name of the process has this many numbers.
    HasNumbers(usize),
    /// No process has this name.
    NoProcess(ProcName),
    /// The process doesn't see the one of this name, for it doesn't know the job.
    IsUnseen(ProcName, ProcName),
    /// The one of this name is no child of it.
    IsNoChild(ProcName),
    /// No user has this name; the user has another password.
    NoUser(Name),
    WrongPassword(Name),
    /// The process is in this job.
    IsInJob(ProcName),
    /// Nobody starts no job.
    StartsNoJob,
}

/// Returns why the first of these parts that is not met isn't.
pub(crate) fn first_reason(view: &View, parts: &[Part]) -> Option<Reason>
    ensures { option_map (reason_of view.now.asked.now.path) result
        ≡ first_reason view.now parts.now }
{
    for part in parts {
        let reason = part_reason(view, part);
        if reason.is_some() {
            return reason;
        }
    }
    None
}

/// Returns why a part is not met, if it isn't.
fn part_reason(view: &View, part: &Part) -> Option<Reason>
    ensures { option_map (reason_of view.now.asked.now.path) result ≡ part_reason view.now part.now }
{
    match part {
        Part::Walk => not_walked(view),
        Part::MayRead => not_read(view),
        Part::MayWrite => not_written(view),
        Part::MayWriteAbove => not_written_above(view),
        Part::OfProcess(part) => match process_reason(view, part) {
            Some(reason) => Some(Reason::OfProcess(reason)),
            None => None,
        },
        _ => match path_reason(view, part) {
            Some(reason) => Some(Reason::OfPath(reason)),
            None => None,
        },
    }
}

/// Returns why a part that is of what is at a path, whoever calls, is not met, if it isn't. Of
/// other parts it returns none.
fn path_reason(view: &View, part: &Part) -> Option<PathReason>
    ensures { option_map (path_reason_of view.now.asked.now.path) result
        ≡ path_reason view.now part.now }
{
    let here = &view.facts.way.here;
    match part {
        Part::NotRoot(errno) if view.asked.path.depth() == 0 => Some(root_reason(*errno)),
        Part::Exists if here.is_none() => Some(PathReason::IsMissing),
        Part::IsFile if !has_file(here) => Some(PathReason::HasDirectory),
        Part::IsDirectory if !has_directory(here) => Some(PathReason::HasFile),
        Part::Absent if here.is_some() => Some(PathReason::IsTaken),
        Part::AbsentBeside => taken_beside(view),
        Part::HasRoomAbove => no_room(view.facts.above),
        Part::IsEmpty => not_empty(view.facts.here),
        Part::Fits(kept) => too_long(here, *kept, view.asked.new),
        _ => None,
    }
}

/// Returns why a part that is of the process alone is not met, if it isn't.
fn process_reason(view: &View, part: &ProcessPart) -> Option<ProcessReason>
    ensures { option_map process_reason_of result ≡ process_reason view.now part.now }
{
    let (caller, asked) = (view.caller, view.asked);
    let numbers = asked.process.numbers().len();
    let (is_met, reason) = match part {
        ProcessPart::Found => return view.facts.sought,
        ProcessPart::InNoJob => return in_job(caller),
        ProcessPart::IsUser => return no_user(view),
        ProcessPart::HasPassword => return wrong_password(view),
        ProcessPart::MayMake => (
            may_make(view.users, caller, &asked.mode),
            unmade(&asked.mode),
        ),
        ProcessPart::HasChildLeft => (
            caller.born < MOST_CHILDREN,
            ProcessReason::HadChildren(caller.born),
        ),
        ProcessPart::HasNumberLeft => (
            numbers < MOST_NUMBERS,
            ProcessReason::HasNumbers(numbers + 1),
        ),
        ProcessPart::IsChild => (
            is_child(&asked.process, &asked.other),
            ProcessReason::IsNoChild(asked.other),
        ),
        ProcessPart::IsSomebody => (caller.user != nobody(), ProcessReason::StartsNoJob),
    };
    if is_met { None } else { Some(reason) }
}

/// Returns why a call may not name `/`, by its refusal.
fn root_reason(errno: Errno) -> PathReason
    ensures { IsRootReason errno result }
{
    match errno {
        Errno::EEXIST => PathReason::IsTaken,
        Errno::EISDIR => PathReason::HasDirectory,
        _ => PathReason::RootStays,
    }
}

/// Returns why the process can't walk to the path.
fn not_walked(view: &View) -> Option<Reason>
    ensures { option_map (reason_of view.now.asked.now.path) result ≡ part_reason view.now Walk }
{
    match view.facts.way.walk {
        Some(barrier) => Some(Reason::CannotWalk(barrier)),
        None => None,
    }
}

/// Returns why the process may not read what is at the path.
fn not_read(view: &View) -> Option<Reason>
    ensures { option_map (reason_of view.now.asked.now.path) result ≡ part_reason view.now MayRead }
{
    match unread_in(&view.facts.way.here) {
        Some(cause) => Some(Reason::MayNotRead(cause)),
        None => None,
    }
}

/// Returns why the process may not write what is at the path.
fn not_written(view: &View) -> Option<Reason>
    ensures { option_map (reason_of view.now.asked.now.path) result ≡ part_reason view.now MayWrite }
{
    match unwritten_in(&view.facts.way.here) {
        Some(cause) => Some(Reason::MayNotWrite(cause)),
        None => None,
    }
}

/// Returns why the process may not write the directory of the path.
fn not_written_above(view: &View) -> Option<Reason>
    ensures { option_map (reason_of view.now.asked.now.path) result
        ≡ part_reason view.now MayWriteAbove }
{
    match unwritten_in(&view.facts.way.above) {
        Some(cause) => Some(Reason::MayNotWriteAbove(cause)),
        None => None,
    }
}

/// Returns why the process may not read what is there.
fn unread_in(spot: &Option<Spot>) -> Option<Cause>
    ensures { option_map cause_of result ≡ unread_in spot.now }
{
    match spot {
        Some(spot) => spot.seen.unread,
        None => None,
    }
}

/// Returns why the process may not write what is there.
fn unwritten_in(spot: &Option<Spot>) -> Option<Cause>
    ensures { option_map cause_of result ≡ unwritten_in spot.now }
{
    match spot {
        Some(spot) => spot.seen.unwritten,
        None => None,
    }
}

/// Returns that something has the name that a call gives, in the directory of its path, if it has.
fn taken_beside(view: &View) -> Option<PathReason>
    ensures { option_map (path_reason_of view.now.asked.now.path) result
        ≡ path_reason view.now AbsentBeside }
{
    match view.asked.beside {
        Some(name) if view.facts.beside => Some(PathReason::IsTakenBeside(name)),
        _ => None,
    }
}

/// Returns that a directory with so many entries has no room for one more, if it hasn't.
fn no_room(entries: usize) -> Option<PathReason>
    ensures { result ≡ unless (nat_lt entries most_entries) (PathReason.IsFull entries) }
{
    if entries < MOST_ENTRIES {
        None
    } else {
        Some(PathReason::IsFull(entries))
    }
}

/// Returns that a directory with so many entries is not empty, if it isn't.
fn not_empty(entries: usize) -> Option<PathReason>
    ensures { result ≡ unless (entries == 0) (PathReason.IsNotEmpty entries) }
{
    if entries == 0 {
        None
    } else {
        Some(PathReason::IsNotEmpty(entries))
    }
}

/// Returns why a file may not have this many new bytes.
fn too_long(spot: &Option<Spot>, kept: Kept, new: usize) -> Option<PathReason>
    ensures { result ≡ unless (nat_le (bytes_then kept spot.now new) most_bytes)
        (PathReason.IsTooLong (bytes_then kept spot.now new)) }
{
    let old = match kept {
        Kept::All => bytes_of(spot),
        Kept::Nothing => 0,
    };
    let bytes = old as u128 + new as u128;
    if bytes <= MOST_BYTES {
        None
    } else {
        Some(PathReason::IsTooLong(bytes))
    }
}

/// Checks whether a process may make something of a mode.
fn may_make(users: &UserTable, caller: &Caller, mode: &Mode) -> bool
    ensures { result ≡ is_some (class_made users.now (process_of caller.now) mode.now) }
{
    if !caller.chain.is_empty() {
        return true;
    }
    match mode {
        Mode::Open => true,
        Mode::Private | Mode::Readable => caller.user != nobody(),
        Mode::Group(group) => is_member(users, caller.user, *group),
    }
}

/// Returns why nothing is made of a mode.
fn unmade(mode: &Mode) -> ProcessReason
    ensures { process_reason_of result ≡ unmade mode.now }
{
    match mode {
        Mode::Group(group) => ProcessReason::IsNoMember(*group),
        _ => ProcessReason::MakesOnlyOpen,
    }
}

/// Returns why a process may not log in, which is in a job.
fn in_job(caller: &Caller) -> Option<ProcessReason>
    ensures { option_map process_reason_of result
        ≡ option_map IsInJob (innermost (process_of caller.now)) }
{
    match innermost(caller) {
        Some(job) => Some(ProcessReason::IsInJob(job)),
        None => None,
    }
}

/// Checks whether the second process is a child of the first.
fn is_child(process: &ProcName, other: &ProcName) -> bool
    ensures { result ≡ is_child process.now other.now }
{
    match other.numbers() {
        [] => false,
        [_, above @ ..] => process.numbers() == above,
    }
}

/// Returns that no user has the name as whom a call logs in, if none has.
fn no_user(view: &View) -> Option<ProcessReason>
    ensures { option_map process_reason_of result ≡ process_reason view.now IsUser }
{
    match view.asked.user {
        Some(name) if view.users.number_of(name).is_none() => Some(ProcessReason::NoUser(name)),
        _ => None,
    }
}

/// Returns that the user as whom a call logs in has another password.
fn wrong_password(view: &View) -> Option<ProcessReason>
    ensures { option_map process_reason_of result ≡ process_reason view.now HasPassword }
{
    match view.asked.user {
        Some(name) => Some(ProcessReason::WrongPassword(name)),
        None => None,
    }
}

/// Returns the path of the directory of a path, which is `/` where the path is.
pub(crate) fn above(path: &Path) -> Path
    ensures value { result ≡ parent path.now }
    ensures short { length result < most_names }
{
    match path.names() {
        [] => Path::root(),
        [_, above @ ..] => path_of(above),
    }
}

/// Returns the path of this name in the directory of a path.
pub(crate) fn beside(path: &Path, name: Name) -> Path
    ensures { result ≡ name ∷ parent path.now }
{
    above(path).entry(name)
}

/// Checks whether a directory is there.
fn has_directory(spot: &Option<Spot>) -> bool
    ensures { result ≡ has_directory spot.now }
{
    match spot {
        Some(spot) => spot.seen.is_directory,
        None => false,
    }
}

/// Checks whether a file is there.
fn has_file(spot: &Option<Spot>) -> bool
    ensures { result ≡ has_file spot.now }
{
    match spot {
        Some(spot) => !spot.seen.is_directory,
        None => false,
    }
}

/// Counts the bytes of the file that is there. Where none is, there are none.
fn bytes_of(spot: &Option<Spot>) -> usize
    ensures { result ≡ bytes_of spot.now }
{
    match spot {
        Some(spot) => spot.seen.bytes,
        None => 0,
    }
}
