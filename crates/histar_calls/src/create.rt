//! Making a file.
ghost use Rattle.std.specs.Prelude.{◌<◌};
ghost use Rattle.std.specs.FinMap as map;
ghost use Rattle.histar_flat.specs.FlatCalls.{most_entries};
ghost use Rattle.histar_programs.specs.Programs.{Runs, RunsPart};
ghost use Rattle.histar_calls.specs.Create.{add_file, create_program, make_file};
ghost use Rattle.histar_programs.specs.Refusals.{settled};

use histar_base::Bytes;
use histar_flat::{Mode, Name, Reply};
use histar_heap::Heap;
use histar_label::{Label, LabelStore};
use histar_layout::{Target, label_made};
use histar_object::ObjId;
use histar_programs::{CallError, Room, Unix, find_room, write_entries};
use histar_syscall::Kernel;

/// Makes an empty file. EEXIST where the path is `/`, ENOENT or ENOTDIR where the way to it breaks off,
/// EEXIST where something is there already, ENOSPC at 64 entries, EACCES where the kernel doesn't let the
/// thread observe a directory on the way or modify the last one, EPERM where it doesn't let it make a
/// file of this mode, for example for a group whose member the process's user isn't.
pub fn create<H: Heap, S: LabelStore + Drop>(
    heap: H,
    kernel: &mut Kernel<S>,
    unix: &Unix,
    path: &[Name],
    mode: Mode,
) -> Result<Reply, CallError>
    ensures { Runs H.Refused (create_program unix.now.users.now unix.now.roots.now path.now mode)
        kernel.old kernel.new unix.now.caller.now.thread (settled result) }
{
    let thread = unix.caller.thread;
    let room = find_room(heap, kernel, unix.roots, thread, path)?;
    make_file(heap, kernel, unix, room, mode)?;
    Ok(Reply::Done)
}

/// Makes a file with the label that this mode gives to new objects of the caller.
fn make_file<H: Heap, S: LabelStore + Drop>(
    heap: H,
    kernel: &mut Kernel<S>,
    unix: &Unix,
    room: Room,
    mode: Mode,
) -> Result<(), CallError>
    requires { map.len room.entries < most_entries }
    ensures { RunsPart H.Refused (make_file unix.now.users.now mode room) kernel.old kernel.new
        unix.now.caller.now.thread result }
{
    let thread = unix.caller.thread;
    let own = kernel.lend_own_label(heap, thread)?;
    let label = label_made(heap, own, unix.users, mode)?;
    add_file(heap, kernel, thread, room, label)
}

/// Makes an empty segment with this label, and writes the entry.
fn add_file<H: Heap, S: LabelStore + Drop>(
    heap: H,
    kernel: &mut Kernel<S>,
    thread: ObjId,
    room: Room,
    label: Label,
) -> Result<(), CallError>
    requires { map.len room.entries < most_entries }
    ensures { RunsPart H.Refused (add_file label room) kernel.old kernel.new thread result }
{
    let Room {
        place,
        mut entries,
        name,
    } = room;
    let empty = Bytes::new(heap.alloc());
    let file = kernel.make_segment(heap, thread, place.container, label, empty)?;
    entries.insert(heap, &name, Target::File(file))?;
    write_entries(heap, kernel, thread, place, entries)
}
