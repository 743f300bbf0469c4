//! Reading all processes.
ghost use Rattle.std.specs.Prelude.{◌≡◌, ◌≤◌, IfOk, OnErr, length};
ghost use Rattle.histar_flat.specs.Words.{most_numbers};
ghost use Rattle.histar_syscall.specs.KernelModel.{state};
ghost use Rattle.histar_process.specs.Parts.{home_of};
ghost use Rattle.histar_readout.specs.Memory.{OnOutOfMemoryOfProcess};
ghost use Rattle.histar_readout.specs.Processes.{AddsProcesses, FindsProcesses, child_of};

use crate::process::{ProcessError, ProcessNode, read_process};
use histar_flat::{MOST_NUMBERS, ProcName};
use histar_heap::Heap;
use histar_label::LabelStore;
use histar_layout::{Child, UserTable, find_child};
use histar_object::ObjId;
use histar_programs::{Home, Roots};
use histar_syscall::Kernel;
use std::alloc::AllocError;

/// A process by its name, with its container and its segment.
#[derive(Clone, Copy)]
struct NamedHome {
    name: ProcName,
    home: Home,
}

/// Reads the processes of a kernel: those that the process segments list from that of process 0 on, each
/// before its children, and these by rising numbers. It reads the kernel's table, and makes no raw call. None
/// where a segment on the way is no process segment, a container or a thread is missing, or a name is too
/// long.
pub fn procs_of<H: Heap, S: LabelStore + Drop>(
    heap: H,
    kernel: &Kernel<S>,
    roots: &Roots,
    users: &UserTable,
) -> Result<Option<Vec<ProcessNode>>, AllocError>
    ensures ok { IfOk result (FindsProcesses users.now (state kernel.now) roots.now) }
    ensures memory { OnErr result H.Refused }
{
    let zero = NamedHome {
        name: ProcName::zero(),
        home: roots.home,
    };
    let mut processes = Vec::new(heap.alloc());
    match push_process(heap, kernel, users, &zero, &mut processes) {
        Ok(()) => Ok(Some(processes)),
        Err(ProcessError::NoProcess) => Ok(None),
        Err(ProcessError::OutOfMemory) => Err(AllocError),
    }
}

/// Adds a process, and then its children, each with its own children.
fn push_process<H: Heap, S: LabelStore + Drop>(
    heap: H,
    kernel: &Kernel<S>,
    users: &UserTable,
    found: &NamedHome,
    processes: &mut Vec<ProcessNode>,
) -> Result<(), ProcessError>
    requires { length found.now.name ≤ most_numbers }
    ensures adds { AddsProcesses users.now (state kernel.now) found.now.name found.now.home
        processes.old.items processes.new.items result }
    ensures memory { OnOutOfMemoryOfProcess result H.Refused }
{
    let (name, segment) = (&found.name, found.home.segment);
    let node = read_process(heap, kernel, users, name, &found.home)?;
    let born = node.born;
    heap.push(processes, node)?;
    'births: for births in 0..born {
        let Some(child) = child_of(kernel, segment, births + 1) else {
            continue;
        };
        if name.numbers().len() == MOST_NUMBERS {
            return Err(ProcessError::NoProcess);
        }
        let inner = NamedHome {
            name: name.child(child.number),
            home: home_of(child),
        };
        push_process(heap, kernel, users, &inner, processes)?;
    }
    Ok(())
}

/// Looks up the child of this number in a process segment.
fn child_of<S: LabelStore + Drop>(kernel: &Kernel<S>, segment: ObjId, number: u8) -> Option<Child>
    ensures { result ≡ child_of (state kernel.now) segment number }
{
    let Ok(found) = find_child(kernel.bytes(segment), number) else {
        return None;
    };
    found
}

/// Returns the container and the process segment of a child.
fn home_of(child: Child) -> Home
    ensures { result ≡ home_of child }
{
    Home {
        container: child.container,
        segment: child.segment,
    }
}
