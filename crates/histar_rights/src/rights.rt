//! Rights of a process at a path, and their letters.
ghost use Rattle.std.specs.Prelude.{◌≡◌, ◌++◌, OnOk};
ghost use Rattle.histar_rights.specs.Rights.{right_spelled, rights_below, rights_spelled};
ghost use Rattle.histar_rights.specs.Rights.{rights_text};

use std::alloc::AllocError;

/// What a process may do with what is at a path.
#[derive(Clone, Copy, Debug, PartialEq, Eq)]
pub struct Rights {
    /// It may ask for its owner and its mode.
    pub stat: bool,
    /// It may read it, or list it where it is a directory.
    pub read: bool,
    /// It may write it, or make something in it where it is a directory.
    pub write: bool,
    /// It may remove it.
    pub remove: bool,
}

impl Rights {
    /// The rights above `/`: those of a directory to which each process may walk, and which no process may
    /// write.
    pub const ABOVE_ROOT: Rights = Rights {
        stat: true,
        read: true,
        write: false,
        remove: false,
    };

    /// No right, as at a path with nothing, or of a process that doesn't run.
    pub const NONE: Rights = Rights {
        stat: false,
        read: false,
        write: false,
        remove: false,
    };

    /// Returns the rights at an entry of this directory, given what its label allows.
    pub fn below(self, observes: bool, modifies: bool) -> Rights
        ensures { result ≡ rights_below self observes modifies }
    {
        Rights {
            stat: self.read,
            read: self.read && observes,
            write: self.read && modifies,
            remove: self.write,
        }
    }

    /// Adds the letters of the rights, with a hyphen for each one that is withheld.
    pub fn push_letters(self, line: &mut Vec<u8>) -> Result<(), AllocError>
        ensures { OnOk result (line.new.items ≡ line.old.items ++ rights_text self) }
    {
        line.extend_from_slice(if self.stat { b"s" } else { b"-" })?;
        line.extend_from_slice(if self.read { b"r" } else { b"-" })?;
        line.extend_from_slice(if self.write { b"w" } else { b"-" })?;
        line.extend_from_slice(if self.remove { b"d" } else { b"-" })
    }
}

/// Reads the letters of rights, with a hyphen for each one that is withheld.
#[tactic(auto, using(crate::proofs::Spelling::spelled_by_four, crate::proofs::Spelling::not_spelled_below, crate::proofs::Spelling::not_spelled_above))]
pub fn read_rights(text: &[u8]) -> Option<Rights>
    ensures { result ≡ rights_spelled text.now }
{
    let [stat, read, write, remove] = text else {
        return None;
    };
    Some(Rights {
        stat: right_spelled(b's', *stat)?,
        read: right_spelled(b'r', *read)?,
        write: right_spelled(b'w', *write)?,
        remove: right_spelled(b'd', *remove)?,
    })
}

/// Returns whether a right is given, by its letter or a hyphen in its place, or `None` for another byte.
fn right_spelled(letter: u8, byte: u8) -> Option<bool>
    ensures { result ≡ right_spelled letter byte }
{
    if byte == letter {
        return Some(true);
    }
    if byte == b'-' {
        return Some(false);
    }
    None
}
