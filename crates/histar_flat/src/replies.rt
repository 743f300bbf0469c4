//! Replies to calls, and the errnos of refusals.
ghost use Rattle.std.specs.Prelude.{◌≡◌};
ghost use Rattle.histar_flat.specs.Texts.{errno_text};

use crate::names::Name;
use crate::processes::ProcName;
use histar_base::Bytes;
use std::marker::Model;

/// Why a call is refused. A refused call changes nothing.
#[derive(Clone, Copy, Debug, PartialEq, Eq)]
pub enum Errno {
    /// There is no such file, directory or user.
    ENOENT = 1,
    /// A name on the way to the path is no directory.
    ENOTDIR = 2,
    /// The call needs a file, and the path has a directory.
    EISDIR = 3,
    /// The path has a file or a directory already.
    EEXIST = 4,
    /// The process may not look there, or may not change what is there.
    EACCES = 5,
    /// The process may not make a file or directory of this mode.
    EPERM = 6,
    /// The directory has entries.
    ENOTEMPTY = 7,
    /// `/` can't be removed or renamed.
    EBUSY = 8,
    /// The directory has 64 entries.
    ENOSPC = 9,
    /// The file would have more than 4,096 bytes.
    EFBIG = 10,
    /// There is no such process.
    ESRCH = 11,
    /// The process had 64 children, or its name has no room for another number.
    EAGAIN = 12,
    /// The password is wrong.
    EAUTH = 13,
}

impl Errno {
    /// Returns the name that is printed.
    pub fn name(self) -> &'static str
        ensures { result.now ≡ errno_text self }
    {
        match self {
            Errno::ENOENT => "ENOENT",
            Errno::ENOTDIR => "ENOTDIR",
            Errno::EISDIR => "EISDIR",
            Errno::EEXIST => "EEXIST",
            Errno::EACCES => "EACCES",
            Errno::EPERM => "EPERM",
            Errno::ENOTEMPTY => "ENOTEMPTY",
            Errno::EBUSY => "EBUSY",
            Errno::ENOSPC => "ENOSPC",
            Errno::EFBIG => "EFBIG",
            Errno::ESRCH => "ESRCH",
            Errno::EAGAIN => "EAGAIN",
            Errno::EAUTH => "EAUTH",
        }
    }
}

/// The mode of a file or a directory that is there.
#[derive(Clone, Copy)]
pub enum FileMode {
    /// For its owner alone.
    Private,
    /// For everyone to read, and for its owner to write.
    Readable,
    /// For everyone.
    Open,
    /// For its owner in jobs.
    Scratch,
    /// For the members of the group of this name.
    Group(Name),
}

/// What `stat` reveals of a file or a directory.
#[derive(Clone, Copy)]
pub struct Stat {
    pub is_directory: bool,
    /// The owner, if it has one: an open file and a group's file have none.
    pub owner: Option<Name>,
    pub mode: FileMode,
}

/// The entries of a directory, by rising names, each with whether it is a directory.
#[derive(Drop)]
pub struct Listing {
    entries: Vec<(Name, bool)>,
}

impl Model for Listing {
    ghost use Rattle.std.specs.Prelude.{ℕ, Bool, List};

    ghost Value = { List (List ℕ × Bool) };

    ghost view = { λ l. l.entries.items };
}

impl Listing {
    /// Returns the listing of these entries.
    pub fn new(entries: Vec<(Name, bool)>) -> Self
        ensures { result ≡ entries.items }
    {
        Listing { entries }
    }

    pub fn entries(&self) -> &[(Name, bool)]
        ensures { result.now ≡ self.now }
    {
        self.entries.as_slice()
    }
}

/// The reply to one call.
#[derive(Drop)]
pub enum Reply {
    /// The call was done, and has no other answer.
    Done,
    /// The bytes that were read.
    Data(Bytes),
    /// The entries of a directory.
    Entries(Listing),
    /// The kind, the owner and the mode of what is at a path.
    Stats(Stat),
    /// The child that was born.
    Child(ProcName),
    /// The process runs.
    Running,
    /// The process has exited with this status.
    Exited(u8),
    /// The user of the process, and whether it is in a job.
    User(Name, bool),
    Refused(Errno),
    /// The process that made the call doesn't run.
    Gone,
}
