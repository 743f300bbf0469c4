//! Ending a process.
ghost use Rattle.histar_programs.specs.Programs.{Runs};
ghost use Rattle.histar_programs.specs.Refusals.{settled};
ghost use Rattle.histar_process.specs.ExitCall.{EndsProcess, exit_program};

use crate::find::{Segment, read_segment, write_segment};
use histar_flat::Reply;
use histar_heap::Heap;
use histar_label::LabelStore;
use histar_layout::exit_status;
use histar_programs::{CallError, Unix};
use histar_syscall::Kernel;

/// Ends the process with this number: its segment records the number from then on, and its internal
/// container is unlinked with its thread. EACCES where the kernel doesn't let the thread modify these.
pub fn exit<H: Heap, S: LabelStore + Drop>(
    heap: H,
    kernel: &mut Kernel<S>,
    unix: &Unix,
    number: u8,
) -> Result<Reply, CallError>
    ensures { Runs H.Refused (exit_program unix.now.caller.now.home number) kernel.old kernel.new
        unix.now.caller.now.thread (settled result) }
{
    let (home, thread) = (&unix.caller.home, unix.caller.thread);
    let segment = read_segment(heap, kernel, thread, home)?;
    end_process(heap, kernel, unix, segment, number)?;
    Ok(Reply::Done)
}

/// Records the number in the segment of the process, which was read, and unlinks its internal container.
fn end_process<H: Heap, S: LabelStore + Drop>(
    heap: H,
    kernel: &mut Kernel<S>,
    unix: &Unix,
    segment: Segment,
    number: u8,
) -> Result<(), CallError>
    ensures { EndsProcess H.Refused unix.now.caller.now.home segment number kernel.old kernel.new
        unix.now.caller.now.thread result }
{
    let (home, thread) = (&unix.caller.home, unix.caller.thread);
    let Segment { head, bytes: old } = segment;
    let bytes = exit_status(heap, old.as_slice(), number)?;
    write_segment(heap, kernel, thread, home, bytes)?;
    kernel.unlink(heap, thread, home.container, head.internal)?;
    Ok(())
}
