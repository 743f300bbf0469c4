//! Renaming an entry.
ghost use Rattle.histar_programs.specs.Programs.{Runs};
ghost use Rattle.histar_programs.specs.Refusals.{settled};
ghost use Rattle.histar_moves.specs.Rename.{rename_program};

use crate::entry::find_entry;
use histar_flat::{Name, Reply};
use histar_heap::Heap;
use histar_label::LabelStore;
use histar_programs::{CallError, Unix, write_entries};
use histar_syscall::Kernel;

/// Gives the entry of a path another name in its directory. EBUSY for `/`, ENOENT or ENOTDIR where the
/// way to it breaks off, ENOENT where nothing is there, EEXIST where its directory has an entry of the
/// new name, even this one, EACCES where the kernel doesn't let the thread observe a directory on the way
/// or modify the last one.
pub fn rename<H: Heap, S: LabelStore + Drop>(
    heap: H,
    kernel: &mut Kernel<S>,
    unix: &Unix,
    path: &[Name],
    name: &Name,
) -> Result<Reply, CallError>
    ensures { Runs H.Refused (rename_program unix.now.roots.now path.now name.now)
        kernel.old kernel.new unix.now.caller.now.thread (settled result) }
{
    let thread = unix.caller.thread;
    let entry = find_entry(heap, kernel, unix.roots, thread, path)?;
    entry.must_be_free(name)?;
    let place = entry.place;
    let entries = entry.renamed(heap, name)?;
    write_entries(heap, kernel, thread, place, entries)?;
    Ok(Reply::Done)
}
