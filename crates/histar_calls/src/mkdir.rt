//! Making a directory.
ghost use Rattle.std.specs.Prelude.{◌<◌};
ghost use Rattle.std.specs.FinMap as map;
ghost use Rattle.histar_flat.specs.FlatCalls.{most_entries};
ghost use Rattle.histar_calls.specs.Mkdir.{add_directory, mkdir_program, make_directory};
ghost use Rattle.histar_programs.specs.Programs.{Runs, RunsPart};
ghost use Rattle.histar_programs.specs.Refusals.{settled};

use histar_base::Bytes;
use histar_flat::{Mode, Name, Reply};
use histar_heap::Heap;
use histar_label::{Label, LabelStore};
use histar_layout::{Target, label_made};
use histar_object::ObjId;
use histar_programs::{CallError, Room, Unix, find_room, write_entries};
use histar_syscall::Kernel;

/// Makes an empty directory: a container and in it its directory segment, which has the container's
/// label. It is refused where `create` is.
pub fn mkdir<H: Heap, S: LabelStore + Drop>(
    heap: H,
    kernel: &mut Kernel<S>,
    unix: &Unix,
    path: &[Name],
    mode: Mode,
) -> Result<Reply, CallError>
    ensures { Runs H.Refused (mkdir_program unix.now.users.now unix.now.roots.now path.now mode)
        kernel.old kernel.new unix.now.caller.now.thread (settled result) }
{
    let thread = unix.caller.thread;
    let room = find_room(heap, kernel, unix.roots, thread, path)?;
    make_directory(heap, kernel, unix, room, mode)?;
    Ok(Reply::Done)
}

/// Makes a directory with the label that this mode gives to new objects of the caller.
fn make_directory<H: Heap, S: LabelStore + Drop>(
    heap: H,
    kernel: &mut Kernel<S>,
    unix: &Unix,
    room: Room,
    mode: Mode,
) -> Result<(), CallError>
    requires { map.len room.entries < most_entries }
    ensures { RunsPart H.Refused (make_directory unix.now.users.now mode room) kernel.old kernel.new
        unix.now.caller.now.thread result }
{
    let thread = unix.caller.thread;
    let own = kernel.lend_own_label(heap, thread)?;
    let label = label_made(heap, own, unix.users, mode)?;
    add_directory(heap, kernel, thread, room, label)
}

/// Makes a container with this label and, in it, an empty directory segment with this label; adds the entry.
fn add_directory<H: Heap, S: LabelStore + Drop>(
    heap: H,
    kernel: &mut Kernel<S>,
    thread: ObjId,
    room: Room,
    label: Label,
) -> Result<(), CallError>
    requires { map.len room.entries < most_entries }
    ensures { RunsPart H.Refused (add_directory label room) kernel.old kernel.new thread result }
{
    let Room {
        place,
        mut entries,
        name,
    } = room;
    let same = label.copy(heap)?;
    let container = kernel.make_container(heap, thread, place.container, label)?;
    let empty = Bytes::new(heap.alloc());
    let listing = kernel.make_segment(heap, thread, container, same, empty)?;
    entries.insert(heap, &name, Target::Directory(container, listing))?;
    write_entries(heap, kernel, thread, place, entries)
}
