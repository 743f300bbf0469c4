//! The processes of a machine.
ghost use Rattle.std.specs.Prelude.{IfOk};
ghost use Rattle.histar_prefix.specs.Listing.{AreProcessesIn, HasProcesses};

use histar_label::LabelStore;
use histar_readout::{ProcessNode, procs_of};
use histar_shell::Machine;
use std::alloc::{AllocError, Global};

/// Returns the processes of a machine, in the order of their names.
pub fn processes<S: LabelStore + Drop>(
    alloc: Global,
    machine: &Machine<S>,
) -> Result<Vec<ProcessNode>, AllocError>
    requires { HasProcesses machine.now }
    ensures { IfOk result (λ processes. AreProcessesIn machine.now processes.items) }
{
    match procs_of(alloc, machine.kernel(), machine.roots(), machine.users())? {
        Some(processes) => Ok(processes),
        None => unreachable!(),
    }
}
