//! The users of processes.
ghost use Rattle.std.specs.Prelude.{◌≡◌};
ghost use Rattle.histar_syscall.specs.KernelModel.{state};
ghost use Rattle.histar_names.specs.Runners.{user_at, user_by};

use crate::names::Names;
use histar_flat::{Name, ProcName};
use histar_label::{Label, LabelStore};
use histar_layout::{UserTable, user_of};
use histar_programs::{find_caller, user_name};

/// Returns the user of a process, by the label of its thread, if the process runs.
pub(crate) fn user_at<S: LabelStore + Drop>(names: &Names<S>, process: &ProcName) -> Option<Name>
    ensures { result ≡ user_at names.now.users.now (state names.now.kernel.now)
        names.now.roots.now.home process.now }
{
    let caller = find_caller(names.kernel, names.roots.home, process)?;
    let own = names.kernel.label(caller.thread)?;
    Some(user_by(own, names.users))
}

/// Returns the user of a process, by the label of its thread.
fn user_by(own: &Label, users: &UserTable) -> Name
    ensures { result ≡ user_by users.now own.now }
{
    user_name(users, user_of(own, users))
}
