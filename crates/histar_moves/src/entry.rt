//! Entries of directories that were found.
ghost use Rattle.std.specs.Prelude.{◌≡◌, Some, IfOk, OnErr};
ghost use Rattle.std.specs.FinMap as map;
ghost use Rattle.histar_programs.specs.Programs.{RunsPart};
ghost use Rattle.histar_moves.specs.Parts.{find_entry, must_be_file, must_be_directory, must_be_empty, must_be_free, take_away};

use histar_flat::{Errno, Name};
use histar_heap::Heap;
use histar_label::LabelStore;
use histar_layout::{Dir, Target};
use histar_object::ObjId;
use histar_programs::{CallError, Directory, Place, Roots, walk, write_entries};
use histar_syscall::Kernel;
use std::alloc::AllocError;

/// An entry of a directory that was read.
#[derive(Drop)]
pub struct FoundEntry {
    /// The place of the directory.
    pub place: Place,
    /// All its entries.
    pub entries: Dir,
    /// The name of the entry.
    pub name: Name,
    /// Where it leads.
    pub target: Target,
}

impl FoundEntry {
    /// Checks that the entry is a file's. EISDIR for a directory's.
    pub fn must_be_file(&self) -> Result<(), Errno>
        ensures { result ≡ must_be_file self.now.target }
    {
        match self.target {
            Target::File(_) => Ok(()),
            Target::Directory(_, _) => Err(Errno::EISDIR),
        }
    }

    /// Returns the place of the directory that the entry leads to. ENOTDIR for a file's.
    pub fn must_be_directory(&self) -> Result<Place, Errno>
        ensures { result ≡ must_be_directory self.now.target }
    {
        match self.target {
            Target::File(_) => Err(Errno::ENOTDIR),
            Target::Directory(container, listing) => Ok(Place { container, listing }),
        }
    }

    /// Checks that the directory of the entry has none of this name. EEXIST where it has one.
    pub fn must_be_free(&self, name: &Name) -> Result<(), Errno>
        ensures { result ≡ must_be_free (map.get self.now.entries name.now) }
    {
        match self.entries.get(name) {
            None => Ok(()),
            Some(_) => Err(Errno::EEXIST),
        }
    }

    /// Returns the entries with this one under another name.
    pub fn renamed<H: Heap>(self, heap: H, name: &Name) -> Result<Dir, AllocError>
        requires { map.get self.entries self.name ≡ Some self.target }
        ensures ok { IfOk result (λ entries. entries
            ≡ map.insert (map.remove self.entries self.name) name.now self.target) }
        ensures memory { OnErr result H.Refused }
    {
        let FoundEntry {
            mut entries,
            name: old,
            target,
            ..
        } = self;
        entries.remove(&old);
        entries.insert(heap, name, target)?;
        Ok(entries)
    }
}

/// Checks that a directory has no entry. ENOTEMPTY where it has one.
pub fn must_be_empty(entries: &Dir) -> Result<(), Errno>
    ensures { result ≡ must_be_empty entries.now }
{
    if entries.len() == 0 {
        Ok(())
    } else {
        Err(Errno::ENOTEMPTY)
    }
}

/// Finds the entry of a path: EBUSY where the path is `/`, ENOENT where nothing is there, and the errno of
/// the walk where that is refused.
pub fn find_entry<H: Heap, S: LabelStore + Drop>(
    heap: H,
    kernel: &mut Kernel<S>,
    roots: &Roots,
    thread: ObjId,
    path: &[Name],
) -> Result<FoundEntry, CallError>
    ensures runs { RunsPart H.Refused (find_entry roots.now path.now)
        kernel.old kernel.new thread result }
    ensures there { IfOk result (λ entry. map.get entry.entries entry.name ≡ Some entry.target) }
{
    let [name, parent @ ..] = path else {
        return Err(CallError::Refused(Errno::EBUSY));
    };
    let directory = walk(heap, kernel, roots, thread, parent)?;
    let target = directory.entry_at(name)?;
    let Directory { place, entries } = directory;
    Ok(FoundEntry {
        place,
        entries,
        name: *name,
        target,
    })
}

/// Unlinks the object of an entry from its directory's container, with all below it, and writes the
/// directory without the entry: EACCES where the kernel doesn't let the thread modify these.
pub fn take_away<H: Heap, S: LabelStore + Drop>(
    heap: H,
    kernel: &mut Kernel<S>,
    thread: ObjId,
    entry: FoundEntry,
) -> Result<(), CallError>
    ensures { RunsPart H.Refused (take_away entry) kernel.old kernel.new thread result }
{
    let FoundEntry {
        place,
        mut entries,
        name,
        target,
    } = entry;
    kernel.unlink(heap, thread, place.container, target.object())?;
    entries.remove(&name);
    write_entries(heap, kernel, thread, place, entries)
}
