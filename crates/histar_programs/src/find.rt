//! Finding a file, or room for a new entry, at a path.
ghost use Rattle.std.specs.Prelude.{◌<◌, ◌==◌, IfOk};
ghost use Rattle.std.specs.FinMap as map;
ghost use Rattle.histar_flat.specs.FlatCalls.{most_entries};
ghost use Rattle.histar_programs.specs.Programs.{RunsPart};
ghost use Rattle.histar_programs.specs.Parts.{find_file, find_room};

use crate::call_error::CallError;
use crate::directory::{Directory, file_at, find_place, look_in, walk};
use crate::roots::{Place, Roots};
use histar_flat::{Errno, Name};
use histar_heap::Heap;
use histar_label::LabelStore;
use histar_layout::Dir;
use histar_object::ObjId;
use histar_syscall::Kernel;

/// A file that was found.
#[derive(Clone, Copy)]
pub struct FoundFile {
    /// The container of its directory, which links it.
    pub container: ObjId,
    /// Its segment, which holds its bytes.
    pub segment: ObjId,
}

/// A directory that has room for a new entry of this name.
#[derive(Drop)]
pub struct Room {
    pub place: Place,
    pub entries: Dir,
    pub name: Name,
}

/// Finds the file of a path: EISDIR where the path is `/` or leads to a directory, ENOENT where nothing
/// is there, and the errno of the walk where that is refused.
pub fn find_file<H: Heap, S: LabelStore + Drop>(
    heap: H,
    kernel: &mut Kernel<S>,
    roots: &Roots,
    thread: ObjId,
    path: &[Name],
) -> Result<FoundFile, CallError>
    ensures { RunsPart H.Refused (find_file roots.now path.now) kernel.old kernel.new thread result }
{
    let [name, parent @ ..] = path else {
        return Err(CallError::Refused(Errno::EISDIR));
    };
    let place = find_place(heap, kernel, roots, thread, parent)?;
    let container = place.container;
    let target = look_in(heap, kernel, thread, place, name)?;
    let segment = file_at(target)?;
    Ok(FoundFile { container, segment })
}

/// Finds the place of a new entry: EEXIST where the path is `/` or something is there, ENOSPC at 64
/// entries, and the errno of the walk where that is refused.
pub fn find_room<H: Heap, S: LabelStore + Drop>(
    heap: H,
    kernel: &mut Kernel<S>,
    roots: &Roots,
    thread: ObjId,
    path: &[Name],
) -> Result<Room, CallError>
    ensures runs { RunsPart H.Refused (find_room roots.now path.now) kernel.old kernel.new thread result }
    ensures room { IfOk result (λ room. map.len room.entries < most_entries) }
{
    let [name, parent @ ..] = path else {
        return Err(CallError::Refused(Errno::EEXIST));
    };
    let directory = walk(heap, kernel, roots, thread, parent)?;
    directory.room_at(name)?;
    let Directory { place, entries } = directory;
    Ok(Room {
        place,
        entries,
        name: *name,
    })
}
