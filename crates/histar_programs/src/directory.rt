//! Directories that were read, and the walk to them.
ghost use Rattle.std.specs.Prelude.{◌≡◌, ◌==◌};
ghost use Rattle.std.specs.FinMap as map;
ghost use Rattle.histar_flat.specs.FlatCalls.{most_entries};
ghost use Rattle.histar_programs.specs.Programs.{RunsPart};
ghost use Rattle.histar_programs.specs.Parts.{read_directory, walk_to, directory_at, file_at, entry_at, look_in, find_place};
ghost use Rattle.histar_programs.specs.Parts.{room_at, target_named, write_entries};

use crate::call_error::{CallError, written};
use crate::roots::{Place, Roots};
use histar_flat::{Errno, Name};
use histar_heap::Heap;
use histar_label::LabelStore;
use histar_layout::{Dir, Target, look_up};
use histar_object::ObjId;
use histar_syscall::Kernel;

/// A directory that was read: where it is found, and its entries.
#[derive(Drop)]
pub struct Directory {
    pub place: Place,
    pub entries: Dir,
}

impl Directory {
    /// Returns where the entry of a name leads. ENOENT where the directory has no such entry.
    pub fn entry_at(&self, name: &Name) -> Result<Target, Errno>
        ensures { result ≡ entry_at (target_named self.now name.now) }
    {
        entry_at(self.entries.get(name))
    }

    /// Checks that an entry of this name can be added. EEXIST where the directory has one, ENOSPC at 64
    /// entries.
    pub fn room_at(&self, name: &Name) -> Result<(), Errno>
        ensures { result ≡ room_at (target_named self.now name.now) (map.len self.now.entries == most_entries) }
    {
        if self.entries.get(name).is_some() {
            return Err(Errno::EEXIST);
        }
        if self.entries.is_full() {
            return Err(Errno::ENOSPC);
        }
        Ok(())
    }

    /// Reads a directory: EACCES where the kernel doesn't let the thread observe its segment, ENOTDIR where
    /// the bytes of that segment are no directory.
    pub fn read<H: Heap, S: LabelStore + Drop>(
        heap: H,
        kernel: &mut Kernel<S>,
        thread: ObjId,
        place: Place,
    ) -> Result<Directory, CallError>
        ensures { RunsPart H.Refused (read_directory place) kernel.old kernel.new thread result }
    {
        let bytes = kernel.read_copy(heap, thread, place.container, place.listing)?;
        let Some(entries) = Dir::from_bytes(bytes) else {
            return Err(CallError::Refused(Errno::ENOTDIR));
        };
        Ok(Directory { place, entries })
    }
}

/// Returns what a name leads to, a file or a directory. ENOENT where it leads nowhere.
pub fn entry_at(target: Option<Target>) -> Result<Target, Errno>
    ensures { result ≡ entry_at target }
{
    match target {
        None => Err(Errno::ENOENT),
        Some(target) => Ok(target),
    }
}

/// Returns the place of the directory that a name leads to. ENOENT where it leads nowhere, ENOTDIR where
/// it leads to a file.
fn directory_at(target: Option<Target>) -> Result<Place, Errno>
    ensures { result ≡ directory_at target }
{
    let Some(target) = target else {
        return Err(Errno::ENOENT);
    };
    match target {
        Target::File(_) => Err(Errno::ENOTDIR),
        Target::Directory(container, listing) => Ok(Place { container, listing }),
    }
}

/// Returns the segment of the file that a name leads to. ENOENT where it leads nowhere, EISDIR where it
/// leads to a directory.
pub fn file_at(target: Option<Target>) -> Result<ObjId, Errno>
    ensures { result ≡ file_at target }
{
    let Some(target) = target else {
        return Err(Errno::ENOENT);
    };
    match target {
        Target::File(file) => Ok(file),
        Target::Directory(_, _) => Err(Errno::EISDIR),
    }
}

/// Looks up where a name leads in a directory. Its segment is read in place, as far as needed. EACCES where
/// the kernel doesn't let the thread observe it.
pub fn look_in<H: Heap, S: LabelStore + Drop>(
    heap: H,
    kernel: &mut Kernel<S>,
    thread: ObjId,
    place: Place,
    name: &Name,
) -> Result<Option<Target>, CallError>
    ensures { RunsPart H.Refused (look_in place name.now) kernel.old kernel.new thread result }
{
    let bytes = kernel.read(heap, thread, place.container, place.listing)?;
    Ok(look_up(bytes, name))
}

/// Writes these entries into the segment of a directory: EACCES where the kernel doesn't let the thread
/// modify it.
pub fn write_entries<H: Heap, S: LabelStore + Drop>(
    heap: H,
    kernel: &mut Kernel<S>,
    thread: ObjId,
    place: Place,
    entries: Dir,
) -> Result<(), CallError>
    ensures { RunsPart H.Refused (write_entries place entries) kernel.old kernel.new thread result }
{
    let bytes = entries.into_bytes();
    written(kernel.write(heap, thread, place.container, place.listing, 0, bytes))
}

/// Finds the place of the directory of these names, the last name first. Each directory on the way
/// to it is read in place. EACCES where one may not be observed, ENOENT where a name is not there, ENOTDIR
/// where it leads to a file.
pub fn find_place<H: Heap, S: LabelStore + Drop>(
    heap: H,
    kernel: &mut Kernel<S>,
    roots: &Roots,
    thread: ObjId,
    names: &[Name],
) -> Result<Place, CallError>
    ensures { RunsPart H.Refused (find_place roots.now names.now) kernel.old kernel.new thread result }
{
    let [name, parent @ ..] = names else {
        return Ok(roots.slash);
    };
    let above = find_place(heap, kernel, roots, thread, parent)?;
    let target = look_in(heap, kernel, thread, above, name)?;
    let place = directory_at(target)?;
    Ok(place)
}

/// Reads the directory of these names, the last name first. It is refused where its place can't be found,
/// and with EACCES where the kernel doesn't let the thread observe the directory itself.
pub fn walk<H: Heap, S: LabelStore + Drop>(
    heap: H,
    kernel: &mut Kernel<S>,
    roots: &Roots,
    thread: ObjId,
    names: &[Name],
) -> Result<Directory, CallError>
    ensures { RunsPart H.Refused (walk_to roots.now names.now) kernel.old kernel.new thread result }
{
    let place = find_place(heap, kernel, roots, thread, names)?;
    Directory::read(heap, kernel, thread, place)
}
