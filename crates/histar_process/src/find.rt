//! Reading process segments, and finding where processes are, by raw calls.
ghost use Rattle.std.specs.Prelude.{◌≡◌};
ghost use Rattle.histar_programs.specs.Programs.{RunsPart};
ghost use Rattle.histar_process.specs.Parts.{find_home, home_of, must_be_there};
ghost use Rattle.histar_process.specs.Reading.{IsRewritten, RunsReading, read_head, look_up};

use histar_base::Bytes;
use histar_flat::Errno;
use histar_heap::Heap;
use histar_label::LabelStore;
use histar_layout::{Child, StatusHead, find_child, read_status};
use histar_object::ObjId;
use histar_programs::{CallError, Home, written};
use histar_syscall::Kernel;

/// A process segment that was read.
#[derive(Drop)]
pub struct Segment {
    /// Its head: whether the process runs, how many children were born, and where its objects are.
    pub head: StatusHead,
    /// All its bytes.
    pub bytes: Bytes,
}

/// A process whose segment was read, and whose children are to change.
#[derive(Clone, Copy)]
pub struct Parent<'a> {
    /// Where it is found.
    pub home: &'a Home,
    /// The bytes of its segment.
    pub bytes: &'a [u8],
}

/// Returns where a child is found.
pub fn home_of(child: Child) -> Home
    ensures { result ≡ home_of child }
{
    Home {
        container: child.container,
        segment: child.segment,
    }
}

/// Returns the child that was looked up. ESRCH where there is none.
pub fn must_be_there(child: Option<Child>) -> Result<Child, Errno>
    ensures { result ≡ must_be_there child }
{
    match child {
        None => Err(Errno::ESRCH),
        Some(child) => Ok(child),
    }
}

/// Reads the head of a process segment in place: EACCES where the kernel doesn't let the thread observe
/// it, ESRCH where its bytes are no process.
pub fn read_head<H: Heap, S: LabelStore + Drop>(
    heap: H,
    kernel: &mut Kernel<S>,
    thread: ObjId,
    home: &Home,
) -> Result<StatusHead, CallError>
    ensures { RunsPart H.Refused (read_head home.now) kernel.old kernel.new thread result }
{
    let bytes = kernel.read(heap, thread, home.container, home.segment)?;
    let Some(head) = read_status(bytes) else {
        return Err(CallError::Refused(Errno::ESRCH));
    };
    Ok(head)
}

/// Reads a process segment that is going to be written again: EACCES where the kernel doesn't let the
/// thread observe it, ESRCH where its bytes are no process.
pub fn read_segment<H: Heap, S: LabelStore + Drop>(
    heap: H,
    kernel: &mut Kernel<S>,
    thread: ObjId,
    home: &Home,
) -> Result<Segment, CallError>
    ensures { RunsReading H.Refused home.now kernel.old kernel.new thread result }
{
    let bytes = kernel.read_copy(heap, thread, home.container, home.segment)?;
    let Some(head) = read_status(bytes.as_slice()) else {
        return Err(CallError::Refused(Errno::ESRCH));
    };
    Ok(Segment { head, bytes })
}

/// Writes a process segment: EACCES where the kernel doesn't let the thread modify it.
pub fn write_segment<H: Heap, S: LabelStore + Drop>(
    heap: H,
    kernel: &mut Kernel<S>,
    thread: ObjId,
    home: &Home,
    bytes: Bytes,
) -> Result<(), CallError>
    ensures { IsRewritten H.Refused home.now bytes kernel.old kernel.new thread result }
{
    written(kernel.write(heap, thread, home.container, home.segment, 0, bytes))
}

/// Looks up the child of this number in a process segment, which is read in place: EACCES where the kernel
/// doesn't let the thread observe it.
fn look_up<H: Heap, S: LabelStore + Drop>(
    heap: H,
    kernel: &mut Kernel<S>,
    thread: ObjId,
    home: &Home,
    number: u8,
) -> Result<Option<Child>, CallError>
    ensures { RunsPart H.Refused (look_up home.now number) kernel.old kernel.new thread result }
{
    let bytes = kernel.read(heap, thread, home.container, home.segment)?;
    let child = find_child(bytes, number)?;
    Ok(child)
}

/// Finds the process of these numbers, the last number first. The segment of each
/// process above it is read in place. EACCES where one may not be observed, ESRCH where it doesn't list
/// the next number.
pub fn find_home<H: Heap, S: LabelStore + Drop>(
    heap: H,
    kernel: &mut Kernel<S>,
    first: Home,
    thread: ObjId,
    numbers: &[u8],
) -> Result<Home, CallError>
    ensures { RunsPart H.Refused (find_home first numbers.now) kernel.old kernel.new thread result }
{
    let [number, above @ ..] = numbers else {
        return Ok(first);
    };
    let home = find_home(heap, kernel, first, thread, above)?;
    let found = look_up(heap, kernel, thread, &home, *number)?;
    let child = must_be_there(found)?;
    Ok(home_of(child))
}
