//! Entries of directories.
ghost use Rattle.std.specs.Prelude.{◌≡◌};

use histar_object::ObjId;

/// The target of an entry of a directory: a file's segment, or a directory's container together with its
/// directory segment.
#[derive(Clone, Copy, Debug, PartialEq, Eq)]
pub enum Target {
    File(ObjId),
    Directory(ObjId, ObjId),
}

impl Target {
    ghost use Rattle.histar_layout.specs.Directory.{LeadsSomewhere, IsTarget};
    ghost use Rattle.histar_layout.specs.Listing.{is_directory, object_of};
    ghost use Rattle.histar_layout.specs.Writing.{letter_of, numbers_of};

    /// Checks whether the target is a directory.
    pub fn is_directory(&self) -> bool
        ensures { result ≡ is_directory self.now }
    {
        matches!(self, Target::Directory(_, _))
    }

    /// Returns the object of the target: a file's segment, or a directory's container.
    pub fn object(&self) -> ObjId
        ensures { result ≡ object_of self.now }
    {
        match self {
            Target::File(file) => *file,
            Target::Directory(container, _) => *container,
        }
    }

    /// Returns the byte that says whether the target is a file or a directory.
    pub(crate) fn letter(&self) -> u8
        ensures { result ≡ letter_of self.now }
    {
        match self {
            Target::File(_) => b'f',
            Target::Directory(_, _) => b'd',
        }
    }

    /// Returns the number of the file's segment, and 0; or those of the container and its directory segment.
    pub(crate) fn numbers(&self) -> (u64, u64)
        ensures value { result ≡ numbers_of self.now }
        ensures fits { LeadsSomewhere self.now → IsTarget self.now }
    {
        match self {
            Target::File(file) => (file.number(), 0),
            Target::Directory(container, listing) => (container.number(), listing.number()),
        }
    }
}
