//! A running process with its rights at a path, by the labels of the kernel's own objects.
ghost use Rattle.std.specs.Prelude.{◌≡◌};
ghost use Rattle.histar_object.specs.State.{modifies, observes};
ghost use Rattle.histar_syscall.specs.KernelModel.{state};
ghost use Rattle.histar_cells.specs.Cells.{cell_below, visitor_at};

use histar_flat::ProcName;
use histar_label::LabelStore;
use histar_object::ObjId;
use histar_programs::find_caller;
use histar_rights::Rights;
use histar_shell::Machine;
use histar_syscall::Kernel;

/// A process that runs, and its rights at a path.
#[derive(Clone, Copy)]
pub struct Cell {
    pub process: ProcName,
    /// The thread of the process, whose label is compared.
    pub thread: ObjId,
    pub rights: Rights,
}

impl Cell {
    /// Returns the rights of the process at an entry of the directory of this cell.
    pub fn below<S: LabelStore + Drop>(&self, kernel: &Kernel<S>, object: ObjId) -> Cell
        ensures { result ≡ cell_below (state kernel.now) object self.now }
    {
        let observes = observes(kernel, self.thread, object);
        let modifies = observes && modifies(kernel, self.thread, object);
        Cell {
            process: self.process,
            thread: self.thread,
            rights: self.rights.below(observes, modifies),
        }
    }
}

/// Returns the process of a name with its thread, if it runs: it has the rights that each process has above `/`.
pub fn visitor_at<S: LabelStore + Drop>(machine: &Machine<S>, process: &ProcName) -> Option<Cell>
    ensures { result ≡ visitor_at (state machine.now.kernel) machine.now.roots process.now }
{
    let caller = find_caller(machine.kernel(), machine.roots().home, process)?;
    Some(Cell {
        process: *process,
        thread: caller.thread,
        rights: Rights::ABOVE_ROOT,
    })
}

/// Checks whether the label of a thread allows it to observe an object.
fn observes<S: LabelStore + Drop>(kernel: &Kernel<S>, thread: ObjId, object: ObjId) -> bool
    ensures { result ≡ observes ((state kernel.now).objects thread) ((state kernel.now).objects object) }
{
    let (Some(own), Some(label)) = (kernel.label(thread), kernel.label(object)) else {
        return false;
    };
    label.below_raised(own)
}

/// Checks whether the labels allow a thread that observes an object to modify it too.
fn modifies<S: LabelStore + Drop>(kernel: &Kernel<S>, thread: ObjId, object: ObjId) -> bool
    ensures { result ≡ modifies ((state kernel.now).objects thread) ((state kernel.now).objects object) }
{
    let (Some(own), Some(label)) = (kernel.label(thread), kernel.label(object)) else {
        return false;
    };
    own.below(label) && label.below_raised(own)
}
