//! Where a dialogue saves its session: new files, each with a name.
ghost use Rattle.std.specs.Prelude.{◌≡◌, ◌++◌, ◌∷◌, [], OnErr, OnOk, Some};
ghost use Rattle.std.specs.Option.{option_copied};
ghost use Rattle.histar_dialogue.specs.Shelf.{Saved, saved_files, text_of, with_saved};

use std::alloc::{AllocError, Global};

/// Why a file was not saved.
#[derive(Clone, Copy, Debug, PartialEq, Eq)]
pub enum SaveFault {
    /// There is a file of this name.
    IsThere,
    /// The file can't be written.
    Failed,
}

/// Where a session is saved.
///
/// A shelf takes new files, and never another text for one that is there.
pub trait Shelf {
    // The files that were saved so far, in their order, if the shelf knows them.
    ghost saved: { Self → Saved };

    /// Saves a text as a new file of this name.
    fn save(&mut self, name: &[u8], text: &[u8]) -> Result<(), SaveFault>
        ensures ok { OnOk result (saved self.new ≡ with_saved (name.now, text.now) (saved self.old)) }
        ensures err { OnErr result (saved self.new ≡ saved self.old) };
}

/// A file that is kept in memory.
#[derive(Drop)]
struct KeptFile {
    name: Vec<u8>,
    text: Vec<u8>,
}

/// A shelf in memory, for trials.
#[derive(Drop)]
pub struct MemoryShelf {
    alloc: Global,
    files: Vec<KeptFile>,
}

impl MemoryShelf {
    /// Returns the shelf on which no file is.
    pub fn new(alloc: Global) -> MemoryShelf
        ensures { saved_files result.files.items ≡ [] }
    {
        MemoryShelf {
            alloc,
            files: Vec::new(alloc),
        }
    }

    /// Returns the bytes of the file of this name, if there is one.
    pub fn text_of<'a>(&'a self, name: &[u8]) -> Option<&'a [u8]>
        ensures { option_copied result ≡ text_of name.now (saved_files self.now.files.items) }
    {
        let mut rest = self.files.as_slice();
        'files: while let [file, more @ ..] = rest {
            if file.name.as_slice() == name {
                return Some(file.text.as_slice());
            }
            rest = more;
        }
        None
    }

    /// Adds a file behind the others.
    fn add(&mut self, name: &[u8], text: &[u8]) -> Result<(), AllocError>
        ensures ok { OnOk result (saved_files self.new.files.items ≡ saved_files self.old.files.items ++ (name.now, text.now) ∷ []) }
        ensures err { OnErr result (saved_files self.new.files.items ≡ saved_files self.old.files.items) }
    {
        let file = KeptFile {
            name: Vec::from_slice(self.alloc, name)?,
            text: Vec::from_slice(self.alloc, text)?,
        };
        self.files.push(file)?;
        Ok(())
    }
}

impl Shelf for MemoryShelf {
    ghost saved = { λ shelf. Some (saved_files shelf.files.items) };

    fn save(&mut self, name: &[u8], text: &[u8]) -> Result<(), SaveFault> {
        if self.text_of(name).is_some() {
            return Err(SaveFault::IsThere);
        }
        match self.add(name, text) {
            Ok(()) => Ok(()),
            Err(_) => Err(SaveFault::Failed),
        }
    }
}
