//! Killing a process.
ghost use Rattle.std.specs.Prelude.{[], ◌∷◌};
ghost use Rattle.histar_programs.specs.Programs.{Runs};
ghost use Rattle.histar_programs.specs.Refusals.{settled};
ghost use Rattle.histar_process.specs.KillCall.{KillsKnown, kill_program};

use crate::find::{
    Parent, Segment, find_home, home_of, must_be_there, read_head, read_segment, write_segment,
};
use histar_flat::{ProcName, Reply};
use histar_heap::Heap;
use histar_label::LabelStore;
use histar_layout::{find_child, remove_child};
use histar_object::ObjId;
use histar_programs::{CallError, Unix};
use histar_rules::ROOT;
use histar_syscall::Kernel;

/// Kills a process with all its children. EACCES where the kernel doesn't let the thread observe its
/// segment or one above it, ESRCH where it was not born or was killed, EACCES where the kernel doesn't let
/// the thread modify the container above it or the segment of the process above it.
pub fn kill<H: Heap, S: LabelStore + Drop>(
    heap: H,
    kernel: &mut Kernel<S>,
    unix: &Unix,
    name: &ProcName,
) -> Result<Reply, CallError>
    ensures { Runs H.Refused (kill_program unix.now.roots.now name.now) kernel.old kernel.new
        unix.now.caller.now.thread (settled result) }
{
    let [number, above @ ..] = name.numbers() else {
        return kill_first(heap, kernel, unix);
    };
    kill_child(heap, kernel, unix, *number, above)
}

/// Kills process 0.
fn kill_first<H: Heap, S: LabelStore + Drop>(
    heap: H,
    kernel: &mut Kernel<S>,
    unix: &Unix,
) -> Result<Reply, CallError>
    ensures { Runs H.Refused (kill_program unix.now.roots.now []) kernel.old kernel.new
        unix.now.caller.now.thread (settled result) }
{
    let (home, thread) = (&unix.roots.home, unix.caller.thread);
    read_head(heap, kernel, thread, home)?;
    kernel.unlink(heap, thread, ObjId::new(ROOT), home.container)?;
    Ok(Reply::Done)
}

/// Kills the child of this number of the process of these numbers, the last number first.
fn kill_child<H: Heap, S: LabelStore + Drop>(
    heap: H,
    kernel: &mut Kernel<S>,
    unix: &Unix,
    number: u8,
    above: &[u8],
) -> Result<Reply, CallError>
    ensures { Runs H.Refused (kill_program unix.now.roots.now (number ∷ above.now))
        kernel.old kernel.new unix.now.caller.now.thread (settled result) }
{
    let thread = unix.caller.thread;
    let home = find_home(heap, kernel, unix.roots.home, thread, above)?;
    let Segment { bytes, .. } = read_segment(heap, kernel, thread, &home)?;
    let parent = Parent {
        home: &home,
        bytes: bytes.as_slice(),
    };
    kill_known(heap, kernel, thread, &parent, number)?;
    Ok(Reply::Done)
}

/// Kills the child of this number of a process whose segment was read.
fn kill_known<H: Heap, S: LabelStore + Drop>(
    heap: H,
    kernel: &mut Kernel<S>,
    thread: ObjId,
    parent: &Parent,
    number: u8,
) -> Result<(), CallError>
    ensures { KillsKnown H.Refused parent.now.home.now parent.now.bytes.now number
        kernel.old kernel.new thread result }
{
    let Parent { home, bytes } = *parent;
    let found = find_child(bytes, number)?;
    let child = must_be_there(found)?;
    let its = home_of(child);
    read_head(heap, kernel, thread, &its)?;
    let without = remove_child(heap, bytes, number)?;
    kernel.unlink(heap, thread, home.container, its.container)?;
    write_segment(heap, kernel, thread, home, without)
}
