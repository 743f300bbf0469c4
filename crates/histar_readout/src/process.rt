//! Reading one process.
ghost use Rattle.std.specs.Prelude.{◌≡◌, ◌&&◌, ◌∷◌, not, nat_eq, IfOk, OnErr};
ghost use Rattle.std.specs.Set.{is_member};
ghost use Rattle.std.specs.Option.{option_copied};
ghost use Rattle.histar_level.specs.Level.{is_star};
ghost use Rattle.histar_object.specs.Objects.{objects_of};
ghost use Rattle.histar_syscall.specs.KernelModel.{state};
ghost use Rattle.histar_readout.specs.Memory.{OnOutOfMemoryOfProcess};
ghost use Rattle.histar_readout.specs.Process.{ReadsFrom, container_label, life_in, node_in, owned_beside, running_by, thread_label};

use histar_flat::{Name, ProcName};
use histar_heap::Heap;
use histar_label::{Category, Label, LabelStore, Level};
use histar_layout::{Chain, UserTable, is_in_job, jobs_in, read_status, user_of};
use histar_object::ObjId;
use histar_programs::{Caller, Home, caller_in, owned_by, user_name};
use histar_syscall::Kernel;
use std::alloc::{AllocError, AllocFailed};

/// A process that was not killed.
#[derive(Drop)]
pub struct ProcessNode {
    pub name: ProcName,
    /// Its container and its process segment.
    pub home: Home,
    /// The jobs that it is in.
    pub chain: Chain,
    pub life: Life,
    /// The number of children that were born to it.
    pub born: u8,
}

/// Whether a process runs.
#[derive(Drop)]
pub enum Life {
    /// It runs.
    Running {
        /// Its user; nobody, where it has not logged in.
        user: Name,
        /// The jobs that it holds.
        held: Chain,
    },
    /// It has exited with this number.
    Exited(u8),
}

/// The reason why a process can't be read.
pub enum ProcessError {
    /// The objects are no process: bytes are no process segment's, a container or a thread is missing, or a
    /// name is too long.
    NoProcess,
    OutOfMemory,
}

impl From<AllocError> for ProcessError {
    ghost use Rattle.std.specs.Prelude.{◌≡◌};
    ghost use Rattle.histar_readout.specs.declared.process.ProcessError.TheVariants.{OutOfMemory};

    ghost from_gives = { λ _ e. e ≡ OutOfMemory };

    fn from(_error: AllocError) -> Self {
        ProcessError::OutOfMemory
    }
}

impl<T: Drop> From<AllocFailed<T>> for ProcessError {
    ghost use Rattle.std.specs.Prelude.{◌≡◌};
    ghost use Rattle.histar_readout.specs.declared.process.ProcessError.TheVariants.{OutOfMemory};

    ghost from_gives = { λ _ e. e ≡ OutOfMemory };

    fn from(_failed: AllocFailed<T>) -> Self {
        ProcessError::OutOfMemory
    }
}

/// Reads the process of this name at this place.
pub fn read_process<H: Heap, S: LabelStore + Drop>(
    heap: H,
    kernel: &Kernel<S>,
    users: &UserTable,
    name: &ProcName,
    home: &Home,
) -> Result<ProcessNode, ProcessError>
    ensures reads { ReadsFrom (node_in users.now (state kernel.now) name.now home.now) result }
    ensures memory { OnOutOfMemoryOfProcess result H.Refused }
{
    let Some(head) = read_status(kernel.bytes(home.segment)) else {
        return Err(ProcessError::NoProcess);
    };
    let Some(outer) = container_label(kernel, home.container) else {
        return Err(ProcessError::NoProcess);
    };
    Ok(ProcessNode {
        name: *name,
        home: *home,
        chain: Chain::new(jobs_in(heap, outer)?),
        life: read_life(heap, kernel, users, home, head.exited)?,
        born: head.born,
    })
}

/// Reads whether the process at this place runs, and as whom; if it has exited, its segment contains this
/// number.
fn read_life<H: Heap, S: LabelStore + Drop>(
    heap: H,
    kernel: &Kernel<S>,
    users: &UserTable,
    home: &Home,
    exited: Option<u8>,
) -> Result<Life, ProcessError>
    ensures reads { ReadsFrom (life_in users.now (state kernel.now) home.now exited) result }
    ensures memory { OnOutOfMemoryOfProcess result H.Refused }
{
    if let Some(number) = exited {
        return Ok(Life::Exited(number));
    }
    let Some(caller) = caller_in(kernel, *home) else {
        return Err(ProcessError::NoProcess);
    };
    let Some(own) = thread_label(kernel, caller.thread) else {
        return Err(ProcessError::NoProcess);
    };
    Ok(running_by(heap, users, &caller, own)?)
}

/// Returns the user of a process that runs and the jobs that it holds, by the label of its thread.
fn running_by<H: Heap>(
    heap: H,
    users: &UserTable,
    caller: &Caller,
    own: &Label,
) -> Result<Life, AllocError>
    ensures ok { IfOk result (λ life. life ≡ running_by users.now caller.now own.now) }
    ensures memory { OnErr result H.Refused }
{
    let number = user_of(own, users);
    let as_user = owned_by(heap, users, number, !is_in_job(own))?;
    let held = held_by(heap, caller, as_user.as_slice(), own)?;
    Ok(Life::Running {
        user: user_name(users, number),
        held: Chain::new(held),
    })
}

/// Returns the categories that the label of a process's thread owns, without the process's own two and
/// those that it owns as its user.
fn held_by<H: Heap>(
    heap: H,
    caller: &Caller,
    as_user: &[Category],
    own: &Label,
) -> Result<Vec<Category>, AllocError>
    ensures ok { IfOk result (λ held. held.items
        ≡ owned_beside (caller.now.read ∷ caller.now.write ∷ as_user.now) own.now) }
    ensures memory { OnErr result H.Refused }
{
    let mut held = Vec::new(heap.alloc());
    let exceptions = own.exceptions();
    for &(category, level) in exceptions {
        if is_held(caller, as_user, category, level) {
            heap.push(&mut held, category)?;
        }
    }
    Ok(held)
}

/// Checks whether a category at this level is owned, and is neither one of the process's own two nor
/// one of these.
fn is_held(caller: &Caller, as_user: &[Category], category: Category, level: Level) -> bool
    ensures { result ≡ (is_star level
        && not (is_member nat_eq (caller.now.read ∷ caller.now.write ∷ as_user.now) category)) }
{
    level.is_star()
        && category != caller.read
        && category != caller.write
        && !is_among(as_user, category)
}

/// Checks whether a category is one of these.
fn is_among(known: &[Category], category: Category) -> bool
    ensures { result ≡ is_member nat_eq known.now category }
{
    known.iter().any(|other| category == *other)
}

/// Returns the label of a container.
fn container_label<S: LabelStore + Drop>(kernel: &Kernel<S>, container: ObjId) -> Option<&Label>
    ensures { option_copied result ≡ container_label (objects_of kernel.now.kept.objects container) }
{
    if !kernel.is_container(container) {
        return None;
    }
    kernel.label(container)
}

/// Returns the label of a thread.
fn thread_label<S: LabelStore + Drop>(kernel: &Kernel<S>, thread: ObjId) -> Option<&Label>
    ensures { option_copied result ≡ thread_label (objects_of kernel.now.kept.objects thread) }
{
    if !kernel.is_thread(thread) {
        return None;
    }
    kernel.label(thread)
}
