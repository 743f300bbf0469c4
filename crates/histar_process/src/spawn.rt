//! Giving birth to a child.
ghost use Rattle.std.specs.Prelude.{◌≡◌, ◌<◌, length, IfOk};
ghost use Rattle.histar_flat.specs.Words.{most_children, most_numbers};
ghost use Rattle.histar_programs.specs.Programs.{Runs, RunsPart};
ghost use Rattle.histar_programs.specs.Refusals.{settled};
ghost use Rattle.histar_layout.specs.StatusParts.{HasRoomForChild};
ghost use Rattle.histar_process.specs.Births.{RunsBirth};
ghost use Rattle.histar_programs.specs.Kin.{kin_of};
ghost use Rattle.histar_process.specs.Reading.{RunsRoom};
ghost use Rattle.histar_process.specs.SpawnCall.{MakesChild, must_have_room, spawn_program, take_labels};

use crate::birth::{Inherited, give_birth};
use crate::find::{Parent, Segment, read_segment};
use histar_flat::{Errno, MOST_NUMBERS, ProcName, Reply};
use histar_heap::Heap;
use histar_label::{Label, LabelStore};
use histar_layout::{is_in_job, jobs_in, user_of};
use histar_object::ObjId;
use histar_programs::{CallError, Home, Unix, owned_by};
use histar_syscall::Kernel;

/// The greatest number of children that are born to a process.
const MOST_CHILDREN: u8 = 64;

/// Makes a child of the process that makes the call: its user is the caller's, and it is in the same jobs.
/// EAGAIN where the process's name has no room for one number more or 64 children were born already, EACCES
/// where the kernel doesn't let the thread modify the process's own objects.
pub fn spawn<H: Heap, S: LabelStore + Drop>(
    heap: H,
    kernel: &mut Kernel<S>,
    unix: &Unix,
) -> Result<Reply, CallError>
    ensures { Runs H.Refused (spawn_program unix.now.users.now unix.now.process.now unix.now.caller.now.home)
        kernel.old kernel.new unix.now.caller.now.thread (settled result) }
{
    let (name, home, thread) = (unix.process, &unix.caller.home, unix.caller.thread);
    let Segment { head, bytes } = room_for_child(heap, kernel, thread, name, home)?;
    make_child(heap, kernel, unix, bytes.as_slice())?;
    Ok(Reply::Child(name.child(head.born + 1)))
}

/// Makes a child of a caller whose segment has these bytes, and gives the thread its own label and clearance
/// again.
fn make_child<H: Heap, S: LabelStore + Drop>(
    heap: H,
    kernel: &mut Kernel<S>,
    unix: &Unix,
    bytes: &[u8],
) -> Result<(), CallError>
    requires { HasRoomForChild bytes.now }
    ensures { MakesChild H.Refused unix.now.users.now unix.now.caller.now.home bytes.now
        kernel.old kernel.new unix.now.caller.now.thread result }
{
    let thread = unix.caller.thread;
    let (own, clearance) = kernel.own_label(heap, thread)?;
    bear_child(heap, kernel, unix, bytes, &own)?;
    take_labels(heap, kernel, thread, own, clearance)
}

/// Makes a child of a caller whose segment has these bytes and whose thread has this label: its
/// user is the caller's, and it is in the same jobs.
fn bear_child<H: Heap, S: LabelStore + Drop>(
    heap: H,
    kernel: &mut Kernel<S>,
    unix: &Unix,
    bytes: &[u8],
    own: &Label,
) -> Result<(), CallError>
    requires { HasRoomForChild bytes.now }
    ensures { let kin = kin_of unix.now.users.now own.now in
        RunsBirth H.Refused unix.now.caller.now.home bytes.now kin.owned kin.jobs
        kernel.old kernel.new unix.now.caller.now.thread result }
{
    let (users, caller) = (unix.users, unix.caller);
    let jobs = jobs_in(heap, own)?;
    let owned = owned_by(heap, users, user_of(own, users), !is_in_job(own))?;
    let inherited = Inherited {
        owned: owned.as_slice(),
        jobs: jobs.as_slice(),
    };
    let parent = Parent {
        home: &caller.home,
        bytes,
    };
    give_birth(heap, kernel, caller.thread, &parent, &inherited)
}

/// Gives a thread a label and a clearance.
fn take_labels<H: Heap, S: LabelStore + Drop>(
    heap: H,
    kernel: &mut Kernel<S>,
    thread: ObjId,
    own: Label,
    clearance: Label,
) -> Result<(), CallError>
    ensures { RunsPart H.Refused (take_labels (own, clearance))
        kernel.old kernel.new thread result }
{
    kernel.set_label(heap, thread, own)?;
    kernel.set_clearance(heap, thread, clearance)?;
    Ok(())
}

/// Reads the segment of the process of this name, if one more child may be born to it. EAGAIN where the name
/// has no room for one number more or 64 children were born already, EACCES where the kernel doesn't let the
/// thread observe the segment.
pub fn room_for_child<H: Heap, S: LabelStore + Drop>(
    heap: H,
    kernel: &mut Kernel<S>,
    thread: ObjId,
    name: &ProcName,
    home: &Home,
) -> Result<Segment, CallError>
    ensures runs { RunsRoom H.Refused name.now home.now kernel.old kernel.new thread result }
    ensures name { IfOk result (λ segment. length name.now < most_numbers) }
    ensures born { IfOk result (λ segment. segment.head.born < most_children) }
{
    must_have_room(name.numbers().len() < MOST_NUMBERS)?;
    let segment = read_segment(heap, kernel, thread, home)?;
    must_have_room(segment.head.born < MOST_CHILDREN)?;
    Ok(segment)
}

/// Checks that there is room for one child more. EAGAIN where there is none.
fn must_have_room(room: bool) -> Result<(), Errno>
    ensures { result ≡ must_have_room room }
{
    if room {
        return Ok(());
    }
    Err(Errno::EAGAIN)
}
