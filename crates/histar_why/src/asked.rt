//! What a call needs, kept for the time when the machine has taken the call.
ghost use Rattle.std.specs.Prelude.{◌≡◌, length};
ghost use Rattle.histar_why.specs.Asked.{IsAsked, beside_of, bytes_of, mode_of, other_of, parts_of};
ghost use Rattle.histar_why.specs.Asked.{parts_of_bytes, parts_of_entry, parts_of_look};
ghost use Rattle.histar_why.specs.Asked.{parts_of_process, parts_of_removal, parts_of_wrap, user_of};

use histar_flat::{CallLine, Errno, Mode, Name, Path, ProcName, UnixCall};

/// A part of what a call needs, of the path that it names and of its process.
#[derive(Clone, Copy)]
pub(crate) enum Part {
    /// The path is not `/`, or else this refusal.
    NotRoot(Errno),
    /// The process can walk to the path.
    Walk,
    /// Something is there; a file is; a directory is; nothing is.
    Exists,
    IsFile,
    IsDirectory,
    Absent,
    /// Nothing has the name in the directory of the path that the call gives.
    AbsentBeside,
    /// The process may read what is there; may write it; may write the directory of the path.
    MayRead,
    MayWrite,
    MayWriteAbove,
    /// The directory of the path has room for an entry.
    HasRoomAbove,
    /// The directory at the path has no entry.
    IsEmpty,
    /// The file may have the bytes of the call, after those that it keeps.
    Fits(Kept),
    /// It is a part that is of the process.
    OfProcess(ProcessPart),
}

/// A part of what a call needs, of its process alone.
#[derive(Clone, Copy)]
pub(crate) enum ProcessPart {
    /// The process may make something of the call's mode.
    MayMake,
    /// Fewer than 64 children were born to the process.
    HasChildLeft,
    /// The name of the process has fewer than 8 numbers.
    HasNumberLeft,
    /// The process finds the one that is named.
    Found,
    /// The one that is named is a child of it.
    IsChild,
    /// A user has the name; and the password that was given.
    IsUser,
    HasPassword,
    /// The process is in no job; it is not nobody's.
    InNoJob,
    IsSomebody,
}

/// Which of its old bytes a file keeps.
#[derive(Clone, Copy)]
pub(crate) enum Kept {
    All,
    Nothing,
}

/// A call without the bytes and the password that it has.
#[derive(Drop)]
pub(crate) struct Asked {
    /// The number of the call's line.
    pub line: u32,
    /// The process that makes the call.
    pub process: ProcName,
    /// The path that the call names, or `/`.
    pub path: Path,
    /// The mode of what it makes, or open.
    pub mode: Mode,
    /// How many bytes it has.
    pub new: usize,
    /// The name that it gives to what is at the path.
    pub beside: Option<Name>,
    /// The user as whom it logs in.
    pub user: Option<Name>,
    /// The process that it names, or process 0.
    pub other: ProcName,
    /// What it needs, in the order of its tests.
    pub parts: &'static [Part],
}

/// Returns what a call line asks for.
pub(crate) fn asked_of(line: &CallLine) -> Asked
    ensures { IsAsked line.now result }
{
    let call = &line.call;
    Asked {
        line: line.line,
        process: line.process,
        path: call.path(),
        mode: mode_of(call),
        new: bytes_of(call),
        beside: beside_of(call),
        user: user_of(call),
        other: other_of(call),
        parts: parts_of(call),
    }
}

/// Returns the mode of what a call makes, or open.
fn mode_of(call: &UnixCall) -> Mode
    ensures { result ≡ mode_of call.now }
{
    match call {
        UnixCall::Create(_, mode) | UnixCall::Mkdir(_, mode) => *mode,
        _ => Mode::Open,
    }
}

/// Counts the bytes of a call.
fn bytes_of(call: &UnixCall) -> usize
    ensures { result ≡ length (bytes_of call.now) }
{
    match call {
        UnixCall::Write(_, bytes) | UnixCall::Append(_, bytes) => bytes.len(),
        _ => 0,
    }
}

/// Returns the name that a call gives to what is at its path.
fn beside_of(call: &UnixCall) -> Option<Name>
    ensures { result ≡ beside_of call.now }
{
    match call {
        UnixCall::Rename(_, name) => Some(*name),
        _ => None,
    }
}

/// Returns the user as whom a call logs in.
fn user_of(call: &UnixCall) -> Option<Name>
    ensures { result ≡ user_of call.now }
{
    match call {
        UnixCall::Login(name, _) => Some(*name),
        _ => None,
    }
}

/// Returns the process that a call names, or process 0.
fn other_of(call: &UnixCall) -> ProcName
    ensures { result ≡ other_of call.now }
{
    match call {
        UnixCall::Status(name) | UnixCall::Kill(name) => *name,
        _ => ProcName::zero(),
    }
}

/// Returns what a call needs, in the order of its tests.
fn parts_of(call: &UnixCall) -> &'static [Part]
    ensures { result.now ≡ parts_of call.now }
{
    match call {
        UnixCall::Create(_, _) | UnixCall::Mkdir(_, _) => parts_of_entry(),
        UnixCall::Write(_, _) | UnixCall::Append(_, _) => parts_of_bytes(call),
        UnixCall::Read(_) | UnixCall::List(_) | UnixCall::Stat(_) => parts_of_look(call),
        UnixCall::Unlink(_) | UnixCall::Rmdir(_) => parts_of_removal(call),
        UnixCall::Rmtree(_) | UnixCall::Rename(_, _) => parts_of_removal(call),
        _ => parts_of_process(call),
    }
}

/// Returns what a call needs that makes a file or a directory.
fn parts_of_entry() -> &'static [Part]
    ensures { result.now ≡ parts_of_entry }
{
    &[
        Part::NotRoot(Errno::EEXIST),
        Part::Walk,
        Part::Absent,
        Part::HasRoomAbove,
        Part::MayWriteAbove,
        Part::OfProcess(ProcessPart::MayMake),
    ]
}

/// Returns what a call needs that puts bytes into a file.
fn parts_of_bytes(call: &UnixCall) -> &'static [Part]
    ensures { result.now ≡ parts_of_bytes call.now }
{
    match call {
        UnixCall::Append(_, _) => &[
            Part::NotRoot(Errno::EISDIR),
            Part::Walk,
            Part::Exists,
            Part::IsFile,
            Part::MayWrite,
            Part::Fits(Kept::All),
        ],
        _ => &[
            Part::NotRoot(Errno::EISDIR),
            Part::Walk,
            Part::Exists,
            Part::IsFile,
            Part::MayWrite,
            Part::Fits(Kept::Nothing),
        ],
    }
}

/// Returns what a call needs that only looks at a path.
fn parts_of_look(call: &UnixCall) -> &'static [Part]
    ensures { result.now ≡ parts_of_look call.now }
{
    match call {
        UnixCall::Read(_) => &[
            Part::NotRoot(Errno::EISDIR),
            Part::Walk,
            Part::Exists,
            Part::IsFile,
            Part::MayRead,
        ],
        UnixCall::List(_) => &[Part::Walk, Part::Exists, Part::IsDirectory, Part::MayRead],
        _ => &[Part::Walk, Part::Exists],
    }
}

/// Returns what a call needs that removes or renames what is at a path.
fn parts_of_removal(call: &UnixCall) -> &'static [Part]
    ensures { result.now ≡ parts_of_removal call.now }
{
    match call {
        UnixCall::Unlink(_) => &[
            Part::NotRoot(Errno::EBUSY),
            Part::Walk,
            Part::Exists,
            Part::IsFile,
            Part::MayWriteAbove,
        ],
        UnixCall::Rmdir(_) => &[
            Part::NotRoot(Errno::EBUSY),
            Part::Walk,
            Part::Exists,
            Part::IsDirectory,
            Part::MayRead,
            Part::IsEmpty,
            Part::MayWriteAbove,
        ],
        UnixCall::Rename(_, _) => &[
            Part::NotRoot(Errno::EBUSY),
            Part::Walk,
            Part::Exists,
            Part::AbsentBeside,
            Part::MayWriteAbove,
        ],
        _ => &[
            Part::NotRoot(Errno::EBUSY),
            Part::Walk,
            Part::Exists,
            Part::MayWriteAbove,
        ],
    }
}

/// Returns what a call on processes needs.
fn parts_of_process(call: &UnixCall) -> &'static [Part]
    ensures { result.now ≡ parts_of_process call.now }
{
    match call {
        UnixCall::Spawn => &[
            Part::OfProcess(ProcessPart::HasChildLeft),
            Part::OfProcess(ProcessPart::HasNumberLeft),
        ],
        UnixCall::Status(_) => &[Part::OfProcess(ProcessPart::Found)],
        UnixCall::Kill(_) => &[
            Part::OfProcess(ProcessPart::Found),
            Part::OfProcess(ProcessPart::IsChild),
        ],
        UnixCall::Login(_, _) => &[
            Part::OfProcess(ProcessPart::IsUser),
            Part::OfProcess(ProcessPart::InNoJob),
            Part::OfProcess(ProcessPart::HasPassword),
        ],
        UnixCall::Wrap(_) => parts_of_wrap(),
        _ => &[],
    }
}

/// Returns what a call needs that starts a job.
fn parts_of_wrap() -> &'static [Part]
    ensures { result.now ≡ parts_of_wrap }
{
    &[
        Part::OfProcess(ProcessPart::HasChildLeft),
        Part::OfProcess(ProcessPart::HasNumberLeft),
        Part::NotRoot(Errno::EEXIST),
        Part::Walk,
        Part::Absent,
        Part::HasRoomAbove,
        Part::MayWriteAbove,
        Part::OfProcess(ProcessPart::IsSomebody),
    ]
}
