//! Asking what is at a path, whose it is and who may read and write it.
ghost use Rattle.histar_programs.specs.Programs.{Runs, RunsPart};
ghost use Rattle.histar_programs.specs.Refusals.{settled};
ghost use Rattle.histar_calls.specs.StatCall.{find_object, stat_program};

use histar_flat::{Errno, Name, Reply};
use histar_heap::Heap;
use histar_label::LabelStore;
use histar_layout::shown_class;
use histar_object::ObjId;
use histar_programs::{CallError, Roots, Unix, entry_at, find_place, look_in};
use histar_rules::ROOT;
use histar_syscall::Kernel;

/// An object that was found at a path.
#[derive(Clone, Copy)]
pub struct FoundObject {
    /// The container that links it.
    pub container: ObjId,
    /// A file's segment, or a directory's container.
    pub object: ObjId,
    pub is_directory: bool,
}

/// Returns kind, owner and mode of what is at a path. It is refused where the walk is, and with ENOENT
/// where nothing is there, or an object of another label than the library gives files.
pub fn stat<H: Heap, S: LabelStore + Drop>(
    heap: H,
    kernel: &mut Kernel<S>,
    unix: &Unix,
    path: &[Name],
) -> Result<Reply, CallError>
    ensures { Runs H.Refused (stat_program unix.now.users.now unix.now.roots.now path.now)
        kernel.old kernel.new unix.now.caller.now.thread (settled result) }
{
    let thread = unix.caller.thread;
    let found = find_object(heap, kernel, unix.roots, thread, path)?;
    let label = kernel.label_of(heap, thread, found.container, found.object)?;
    let Some(class) = shown_class(&label, unix.users) else {
        return Err(CallError::Refused(Errno::ENOENT));
    };
    Ok(Reply::Stats(class.stat(found.is_directory)))
}

/// Finds what is at a path: ENOENT where nothing is there, and the errno of the walk where that is refused.
fn find_object<H: Heap, S: LabelStore + Drop>(
    heap: H,
    kernel: &mut Kernel<S>,
    roots: &Roots,
    thread: ObjId,
    path: &[Name],
) -> Result<FoundObject, CallError>
    ensures { RunsPart H.Refused (find_object roots.now path.now)
        kernel.old kernel.new thread result }
{
    let [name, parent @ ..] = path else {
        return Ok(FoundObject {
            container: ObjId::new(ROOT),
            object: roots.slash.container,
            is_directory: true,
        });
    };
    let place = find_place(heap, kernel, roots, thread, parent)?;
    let container = place.container;
    let found = look_in(heap, kernel, thread, place, name)?;
    let target = entry_at(found)?;
    Ok(FoundObject {
        container,
        object: target.object(),
        is_directory: target.is_directory(),
    })
}
