//! Reading a file.
ghost use Rattle.histar_programs.specs.Programs.{Runs};
ghost use Rattle.histar_calls.specs.Read.{read_program};
ghost use Rattle.histar_programs.specs.Refusals.{settled};

use histar_flat::{Name, Reply};
use histar_heap::Heap;
use histar_label::LabelStore;
use histar_programs::{CallError, Unix, find_file};
use histar_syscall::Kernel;

/// Reads the bytes of a file. EISDIR for `/` and for a directory, ENOENT where nothing is at the path,
/// ENOTDIR where a file lies on the way, EACCES where the kernel doesn't let the thread observe a directory
/// on the way or the file.
pub fn read<H: Heap, S: LabelStore + Drop>(
    heap: H,
    kernel: &mut Kernel<S>,
    unix: &Unix,
    path: &[Name],
) -> Result<Reply, CallError>
    ensures { Runs H.Refused (read_program unix.now.roots.now path.now) kernel.old kernel.new
        unix.now.caller.now.thread (settled result) }
{
    let thread = unix.caller.thread;
    let file = find_file(heap, kernel, unix.roots, thread, path)?;
    let bytes = kernel.read_copy(heap, thread, file.container, file.segment)?;
    Ok(Reply::Data(bytes))
}
