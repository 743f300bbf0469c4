//! The user of a process.
ghost use Rattle.std.specs.Prelude.{◌≡◌};
ghost use Rattle.histar_syscall.specs.KernelModel.{state};
ghost use Rattle.histar_cells.specs.Whose.{IsUserOfProcess, thread_user, user_by};

use histar_flat::{Name, ProcName};
use histar_label::{Label, LabelStore};
use histar_layout::{UserTable, user_of};
use histar_programs::{Roots, find_caller, user_name};
use histar_shell::Machine;
use histar_syscall::Kernel;

/// Returns the user of a process of a machine, nobody where it has not logged in. None if the process doesn't run.
pub fn user_of_process<S: LabelStore + Drop>(
    machine: &Machine<S>,
    process: &ProcName,
) -> Option<Name>
    ensures { IsUserOfProcess machine.now process.now result }
{
    thread_user(machine.kernel(), machine.roots(), machine.users(), process)
}

/// Returns the user of a process that runs, by the label of its thread.
fn thread_user<S: LabelStore + Drop>(
    kernel: &Kernel<S>,
    roots: &Roots,
    users: &UserTable,
    process: &ProcName,
) -> Option<Name>
    ensures { result ≡ thread_user users.now (state kernel.now) roots.now process.now }
{
    let caller = find_caller(kernel, roots.home, process)?;
    let own = kernel.label(caller.thread)?;
    Some(user_by(users, own))
}

/// Returns the name of the user whose thread has this label.
fn user_by(users: &UserTable, own: &Label) -> Name
    ensures { result ≡ user_by users.now own.now }
{
    user_name(users, user_of(own, users))
}
