//! Users, the calls that they make, and the lines of a script that hold them.
ghost use Rattle.std.specs.Prelude.{◌≡◌};
ghost use Rattle.histar_flat.specs.CallRules.{path_of};
ghost use Rattle.histar_flat.specs.Calls.{IsCall};

use crate::names::{Name, Password};
use crate::owned_paths::OwnedPath;
use crate::paths::Path;
use crate::processes::ProcName;
use histar_base::Bytes;

/// A user of the machine, as a script declares one.
#[derive(Clone, Copy)]
pub struct User {
    pub name: Name,
    pub password: Password,
}

/// For whom a file or a directory is made. In a job no mode counts: what is made there is for the job.
#[derive(Clone, Copy)]
pub enum Mode {
    /// For its owner alone.
    Private,
    /// For everyone to read, and for its owner to write.
    Readable,
    /// For everyone.
    Open,
    /// For the members of the group of this name.
    Group(Name),
}

/// A Unix call.
#[derive(Drop)]
pub enum UnixCall {
    /// Makes an empty file.
    Create(OwnedPath, Mode),
    /// Makes an empty directory.
    Mkdir(OwnedPath, Mode),
    /// Asks for the bytes of a file.
    Read(OwnedPath),
    /// Puts bytes in the place of what a file holds.
    Write(OwnedPath, Bytes),
    /// Puts bytes after what a file holds.
    Append(OwnedPath, Bytes),
    /// Asks for the entries of a directory.
    List(OwnedPath),
    /// Asks for the kind, the owner and the mode of what is at a path.
    Stat(OwnedPath),
    /// Removes a file.
    Unlink(OwnedPath),
    /// Removes an empty directory.
    Rmdir(OwnedPath),
    /// Removes a file, or a directory with all below it.
    Rmtree(OwnedPath),
    /// Gives an entry another name in the same directory.
    Rename(OwnedPath, Name),
    /// Starts a child of the process.
    Spawn,
    /// Ends the process that makes the call, with this status.
    Exit(u8),
    /// Asks whether a process runs.
    Status(ProcName),
    /// Ends a child, and all processes below it.
    Kill(ProcName),
    /// Asks for the process's own user, and whether it is in a job.
    Whoami,
    /// Makes the process another user's, if the password is that user's.
    Login(Name, Password),
    /// Starts a job: a directory for it, and a child of the process that is in it.
    Wrap(OwnedPath),
}

impl UnixCall {
    /// Returns the path that the call names, or `/` where it names none.
    pub fn path(&self) -> Path
        ensures { result ≡ path_of self.now }
    {
        match self {
            UnixCall::Create(path, _) | UnixCall::Mkdir(path, _) => path.path(),
            UnixCall::Write(path, _) | UnixCall::Append(path, _) => path.path(),
            UnixCall::Rename(path, _) => path.path(),
            UnixCall::Read(path) | UnixCall::List(path) | UnixCall::Stat(path) => path.path(),
            UnixCall::Unlink(path) | UnixCall::Rmdir(path) | UnixCall::Rmtree(path) => path.path(),
            UnixCall::Wrap(path) => path.path(),
            _ => Path::root(),
        }
    }
}

/// Shows that a call is one that a line of a script can have: its path, its name and its status are valid by
/// their types. It does nothing.
pub fn each_call_is_right(call: &UnixCall)
    ensures { IsCall call.now }
{
    match call {
        UnixCall::Create(path, _)
        | UnixCall::Mkdir(path, _)
        | UnixCall::Read(path)
        | UnixCall::Write(path, _)
        | UnixCall::Append(path, _)
        | UnixCall::List(path)
        | UnixCall::Stat(path)
        | UnixCall::Unlink(path)
        | UnixCall::Rmdir(path)
        | UnixCall::Rmtree(path)
        | UnixCall::Wrap(path) => {
            let _names = path.names();
        }
        UnixCall::Rename(path, name) => {
            let _names = path.names();
            let _text = name.as_bytes();
        }
        UnixCall::Exit(status) => {
            let _status = *status;
        }
        _ => {}
    }
}

/// A call line of a script.
#[derive(Drop)]
pub struct CallLine {
    /// The number of the line; lines count from 1.
    pub line: u32,
    /// The process that makes the call.
    pub process: ProcName,
    pub call: UnixCall,
}
