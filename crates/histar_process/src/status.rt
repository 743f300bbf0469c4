//! Asking whether a process runs, or what it has exited with.
ghost use Rattle.std.specs.Prelude.{◌≡◌};
ghost use Rattle.histar_programs.specs.Programs.{Runs};
ghost use Rattle.histar_programs.specs.Refusals.{settled};
ghost use Rattle.histar_process.specs.StatusCall.{status_reply, status_program};

use crate::find::{find_home, read_head};
use histar_flat::{ProcName, Reply};
use histar_heap::Heap;
use histar_label::LabelStore;
use histar_programs::{CallError, Unix};
use histar_syscall::Kernel;

/// Answers whether a process runs, or what it has exited with. EACCES where the kernel doesn't let the thread
/// observe its segment or one above it, ESRCH where it was not born or was killed.
pub fn status<H: Heap, S: LabelStore + Drop>(
    heap: H,
    kernel: &mut Kernel<S>,
    unix: &Unix,
    name: &ProcName,
) -> Result<Reply, CallError>
    ensures { Runs H.Refused (status_program unix.now.roots.now name.now) kernel.old kernel.new
        unix.now.caller.now.thread (settled result) }
{
    let thread = unix.caller.thread;
    let home = find_home(heap, kernel, unix.roots.home, thread, name.numbers())?;
    let head = read_head(heap, kernel, thread, &home)?;
    Ok(status_reply(head.exited))
}

/// Returns the reply of `status` for a process that has exited with this number, or runs.
fn status_reply(exited: Option<u8>) -> Reply
    ensures { result ≡ status_reply exited }
{
    match exited {
        None => Reply::Running,
        Some(number) => Reply::Exited(number),
    }
}
