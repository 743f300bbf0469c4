//! The scratch directory of a job, and the thread that holds the job.
ghost use Rattle.std.specs.Prelude.{◌<◌, ◌≡◌, IfOk};
ghost use Rattle.std.specs.FinMap as map;
ghost use Rattle.histar_rules.specs.declared.raw.RawCall.TheVariants as calls;
ghost use Rattle.histar_flat.specs.FlatCalls.{most_entries};
ghost use Rattle.histar_programs.specs.Programs.{RunsPart};
ghost use Rattle.histar_wrap.specs.Scratch.{ask_or_give_back, hold_job, make_scratch};
ghost use Rattle.histar_wrap.specs.Steps.{restore, stopping};

use histar_base::Bytes;
use histar_heap::Heap;
use histar_label::{Category, Label, LabelStore, Level};
use histar_layout::Target;
use histar_object::ObjId;
use histar_programs::{CallError, Room, write_entries};
use histar_syscall::{Kernel, Refusal};

/// The thread that wraps.
#[derive(Drop)]
pub struct Wrapper {
    pub thread: ObjId,
    /// Its own label, which it had before the job.
    pub own: Label,
    /// Its own clearance.
    pub clearance: Label,
}

/// Makes a scratch directory: a container and in it an empty directory segment, both with this label, and
/// the entry in the directory above. EACCES where the directory above may not be written, EPERM where the
/// label is beyond the thread's clearance: these come at the container, and the wrapper takes its own label
/// and clearance again first.
pub fn make_scratch<H: Heap, S: LabelStore + Drop>(
    heap: H,
    kernel: &mut Kernel<S>,
    wrapper: &Wrapper,
    label: Label,
    room: Room,
) -> Result<(), CallError>
    requires { map.len room.entries < most_entries }
    ensures { RunsPart H.Refused (make_scratch (wrapper.now.own, wrapper.now.clearance) label room)
        kernel.old kernel.new wrapper.now.thread result }
{
    let Room {
        place,
        mut entries,
        name,
    } = room;
    let thread = wrapper.thread;
    let same = label.copy(heap)?;
    let container = make_or_give_back(heap, kernel, wrapper, place.container, label)?;
    let empty = Bytes::new(heap.alloc());
    let listing = kernel.make_segment(heap, thread, container, same, empty)?;
    entries.insert(heap, &name, Target::Directory(container, listing))?;
    write_entries(heap, kernel, thread, place, entries)
}

// Makes a container with this label. Where the kernel denies it the wrapper takes its own label and
// clearance again, and the denial ends the call; where memory runs out inside that, the call ends without
// a reply.
fn make_or_give_back<H: Heap, S: LabelStore + Drop>(
    heap: H,
    kernel: &mut Kernel<S>,
    wrapper: &Wrapper,
    above: ObjId,
    label: Label,
) -> Result<ObjId, CallError>
    ensures runs { RunsPart H.Refused
        (ask_or_give_back (wrapper.now.own, wrapper.now.clearance) (calls.MakeContainer above label))
        kernel.old kernel.new wrapper.now.thread result }
    ensures number { IfOk result (λ container. 0 < container) }
{
    let refusal = match kernel.make_container(heap, wrapper.thread, above, label) {
        Ok(container) => return Ok(container),
        Err(refusal) => refusal,
    };
    let CallError::Refused(errno) = CallError::from(refusal) else {
        return Err(CallError::Stopped);
    };
    restore(heap, kernel, wrapper)?;
    Err(CallError::Refused(errno))
}

// Gives the wrapper its own label and clearance again.
fn restore<H: Heap, S: LabelStore + Drop>(
    heap: H,
    kernel: &mut Kernel<S>,
    wrapper: &Wrapper,
) -> Result<(), CallError>
    ensures { RunsPart H.Refused (restore (wrapper.now.own, wrapper.now.clearance))
        kernel.old kernel.new wrapper.now.thread result }
{
    stopping(kernel.set_label(heap, wrapper.thread, wrapper.own.copy(heap)?))?;
    stopping(kernel.set_clearance(heap, wrapper.thread, wrapper.clearance.copy(heap)?))
}

// Returns the answer of a raw call that may not be refused: a refusal ends the call without a reply.
fn stopping(answer: Result<(), Refusal>) -> Result<(), CallError>
    ensures { result ≡ stopping answer }
{
    match answer {
        Ok(()) => Ok(()),
        Err(_) => Err(CallError::Stopped),
    }
}

/// Gives the wrapper its own label and clearance again, but the label owns the job's category, and the
/// clearance has it at 3.
pub fn hold_job<H: Heap, S: LabelStore + Drop>(
    heap: H,
    kernel: &mut Kernel<S>,
    wrapper: &Wrapper,
    job: Category,
) -> Result<(), CallError>
    ensures { RunsPart H.Refused (hold_job (wrapper.now.own, wrapper.now.clearance) job)
        kernel.old kernel.new wrapper.now.thread result }
{
    let label = wrapper.own.with(heap, job, Level::Star)?;
    kernel.set_label(heap, wrapper.thread, label)?;
    let clearance = wrapper.clearance.with(heap, job, Level::L3)?;
    kernel.set_clearance(heap, wrapper.thread, clearance)?;
    Ok(())
}
