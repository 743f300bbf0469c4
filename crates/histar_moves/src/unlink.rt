//! Removing a file.
ghost use Rattle.histar_programs.specs.Programs.{Runs};
ghost use Rattle.histar_programs.specs.Refusals.{settled};
ghost use Rattle.histar_moves.specs.Unlink.{unlink_program};

use crate::entry::{find_entry, take_away};
use histar_flat::{Name, Reply};
use histar_heap::Heap;
use histar_label::LabelStore;
use histar_programs::{CallError, Unix};
use histar_syscall::Kernel;

/// Removes a file. EBUSY for `/`, ENOENT or ENOTDIR where the way to it breaks off, ENOENT where
/// nothing is there, EISDIR for a directory, EACCES where the kernel doesn't let the thread observe a
/// directory on the way or modify the last one.
pub fn unlink<H: Heap, S: LabelStore + Drop>(
    heap: H,
    kernel: &mut Kernel<S>,
    unix: &Unix,
    path: &[Name],
) -> Result<Reply, CallError>
    ensures { Runs H.Refused (unlink_program unix.now.roots.now path.now) kernel.old kernel.new
        unix.now.caller.now.thread (settled result) }
{
    let thread = unix.caller.thread;
    let entry = find_entry(heap, kernel, unix.roots, thread, path)?;
    entry.must_be_file()?;
    take_away(heap, kernel, thread, entry)?;
    Ok(Reply::Done)
}
