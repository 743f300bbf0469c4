//! Asking whose a process is, and whether it is in a job.
ghost use Rattle.histar_programs.specs.Programs.{Runs};
ghost use Rattle.histar_programs.specs.Refusals.{settled};
ghost use Rattle.histar_process.specs.Whoami.{whoami_program};

use histar_flat::Reply;
use histar_heap::Heap;
use histar_label::LabelStore;
use histar_layout::{is_in_job, user_of};
use histar_programs::{CallError, Unix, user_name};
use histar_syscall::Kernel;

/// Answers with the user of the process that makes the call, and whether it is in a job. Both are read off
/// the own label of its thread.
pub fn whoami<H: Heap, S: LabelStore + Drop>(
    heap: H,
    kernel: &mut Kernel<S>,
    unix: &Unix,
) -> Result<Reply, CallError>
    ensures { Runs H.Refused (whoami_program unix.now.users.now) kernel.old kernel.new
        unix.now.caller.now.thread (settled result) }
{
    let own = kernel.lend_own_label(heap, unix.caller.thread)?;
    let number = user_of(own, unix.users);
    Ok(Reply::User(user_name(unix.users, number), is_in_job(own)))
}
