//! Removing an empty directory.
ghost use Rattle.histar_programs.specs.Programs.{Runs};
ghost use Rattle.histar_programs.specs.Refusals.{settled};
ghost use Rattle.histar_moves.specs.Rmdir.{rmdir_program};

use crate::entry::{find_entry, must_be_empty, take_away};
use histar_flat::{Name, Reply};
use histar_heap::Heap;
use histar_label::LabelStore;
use histar_programs::{CallError, Directory, Unix};
use histar_syscall::Kernel;

/// Removes an empty directory. EBUSY for `/`, ENOENT or ENOTDIR where the way to it breaks off, ENOENT
/// where nothing is there, ENOTDIR for a file, EACCES where the kernel doesn't let the thread observe
/// the directory or one on the way, ENOTEMPTY where it has an entry, EACCES where the kernel doesn't let
/// the thread modify the directory above it.
pub fn rmdir<H: Heap, S: LabelStore + Drop>(
    heap: H,
    kernel: &mut Kernel<S>,
    unix: &Unix,
    path: &[Name],
) -> Result<Reply, CallError>
    ensures { Runs H.Refused (rmdir_program unix.now.roots.now path.now) kernel.old kernel.new
        unix.now.caller.now.thread (settled result) }
{
    let thread = unix.caller.thread;
    let entry = find_entry(heap, kernel, unix.roots, thread, path)?;
    let place = entry.must_be_directory()?;
    let directory = Directory::read(heap, kernel, thread, place)?;
    must_be_empty(&directory.entries)?;
    take_away(heap, kernel, thread, entry)?;
    Ok(Reply::Done)
}
