//! Writing a file.
ghost use Rattle.histar_programs.specs.Programs.{Runs};
ghost use Rattle.histar_calls.specs.Write.{write_program};
ghost use Rattle.histar_programs.specs.Refusals.{settled};

use histar_base::Bytes;
use histar_flat::{Name, Reply};
use histar_heap::Heap;
use histar_label::LabelStore;
use histar_programs::{CallError, Unix, find_file, written};
use histar_syscall::Kernel;

/// Replaces what a file holds by these bytes. EISDIR for `/` and for a directory, ENOENT where
/// nothing is at the path, ENOTDIR where a file lies on the way, EACCES where the kernel doesn't let
/// the thread observe a directory on the way or modify the file, EFBIG at more than 4,096 bytes.
pub fn write<H: Heap, S: LabelStore + Drop>(
    heap: H,
    kernel: &mut Kernel<S>,
    unix: &Unix,
    path: &[Name],
    bytes: Bytes,
) -> Result<Reply, CallError>
    ensures { Runs H.Refused (write_program unix.now.roots.now path.now bytes) kernel.old kernel.new
        unix.now.caller.now.thread (settled result) }
{
    let thread = unix.caller.thread;
    let file = find_file(heap, kernel, unix.roots, thread, path)?;
    written(kernel.write(heap, thread, file.container, file.segment, 0, bytes))?;
    Ok(Reply::Done)
}
