//! Listing a directory.
ghost use Rattle.histar_calls.specs.ListCall.{list_program};
ghost use Rattle.histar_programs.specs.Programs.{Runs};
ghost use Rattle.histar_programs.specs.Refusals.{settled};

use histar_flat::{Listing, Name, Reply};
use histar_heap::Heap;
use histar_label::LabelStore;
use histar_layout::MOST_ENTRIES;
use histar_programs::{CallError, Unix, walk};
use histar_syscall::Kernel;

/// Lists the entries of a directory, by rising names. ENOENT where nothing is at the path, ENOTDIR where a
/// file is there or on the way, EACCES where the kernel doesn't let the thread observe the directory or
/// one on the way.
pub fn list<H: Heap, S: LabelStore + Drop>(
    heap: H,
    kernel: &mut Kernel<S>,
    unix: &Unix,
    path: &[Name],
) -> Result<Reply, CallError>
    ensures { Runs H.Refused (list_program unix.now.roots.now path.now) kernel.old kernel.new
        unix.now.caller.now.thread (settled result) }
{
    let thread = unix.caller.thread;
    let mut entries = heap.with_room(MOST_ENTRIES)?;
    let directory = walk(heap, kernel, unix.roots, thread, path)?;
    directory.entries.list(&mut entries);
    Ok(Reply::Entries(Listing::new(entries)))
}
