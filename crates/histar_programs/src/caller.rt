//! The process that makes a call, found in the kernel's own table.
ghost use Rattle.std.specs.Prelude.{◌≡◌, ◌&&◌, not};
ghost use Rattle.histar_level.specs.Levels.{level_of};
ghost use Rattle.histar_syscall.specs.KernelModel.{state};
ghost use Rattle.histar_programs.specs.Caller.{caller_at, caller_in, child_home, home_at, is_zero, leads_to, read_category_in};
ghost use Rattle.histar_programs.specs.Caller.{running_caller, write_category_in};
ghost use Rattle.histar_layout.specs.Jobs.{is_three};

use crate::roots::Home;
use histar_flat::ProcName;
use histar_label::{Category, Label, LabelStore, Level};
use histar_layout::{find_child, is_three, read_status};
use histar_object::ObjId;
use histar_syscall::Kernel;

/// A process that runs and makes a call.
#[derive(Clone, Copy, Debug)]
pub struct Caller {
    pub home: Home,
    /// The thread that makes its raw calls.
    pub thread: ObjId,
    /// The category by which the process keeps its secrets.
    pub read: Category,
    /// The category by which it alone writes its objects.
    pub write: Category,
}

/// Finds the process of this name, if it was born, was not killed and has not exited. It is found with no raw
/// call: from process 0 on, the segment of each process lists its children, and its container links theirs. So
/// bytes that a job has forged lead into the containers of that job alone.
pub fn find_caller<S: LabelStore + Drop>(
    kernel: &Kernel<S>,
    first: Home,
    name: &ProcName,
) -> Option<Caller>
    ensures { result ≡ caller_at (state kernel.now) first name.now }
{
    let home = home_at(kernel, first, name.numbers())?;
    caller_in(kernel, home)
}

/// Finds where the process of these numbers is, whether it runs or has exited. The last number comes first
/// in the list.
pub fn home_at<S: LabelStore + Drop>(
    kernel: &Kernel<S>,
    first: Home,
    numbers: &[u8],
) -> Option<Home>
    ensures { result ≡ home_at (state kernel.now) first numbers.now }
{
    let mut home = first;
    let mut rest = numbers;
    'numbers: while let [below @ .., number] = rest {
        home = child_home(kernel, home, *number)?;
        rest = below;
    }
    Some(home)
}

// Finds where the child of this number is: its segment lists it, and its container links the child's.
fn child_home<S: LabelStore + Drop>(kernel: &Kernel<S>, home: Home, number: u8) -> Option<Home>
    ensures { result ≡ child_home (state kernel.now) home number }
{
    let child = find_child(kernel.bytes(home.segment), number).ok()??;
    if !kernel.is_linked(home.container, child.container) {
        return None;
    }
    Some(Home {
        container: child.container,
        segment: child.segment,
    })
}

/// Returns the process that is found there, if it runs.
pub fn caller_in<S: LabelStore + Drop>(kernel: &Kernel<S>, home: Home) -> Option<Caller>
    ensures { result ≡ caller_in (state kernel.now) home }
{
    let head = read_status(kernel.bytes(home.segment))?;
    if head.exited.is_some() {
        return None;
    }
    running_caller(kernel, home, head.internal, head.thread)
}

// Returns the process that runs there with this internal container and this thread.
fn running_caller<S: LabelStore + Drop>(
    kernel: &Kernel<S>,
    home: Home,
    internal: ObjId,
    thread: ObjId,
) -> Option<Caller>
    ensures { result ≡ running_caller (state kernel.now) home internal thread }
{
    if !leads_to(kernel, home.container, internal, thread) {
        return None;
    }
    let outer = kernel.label(home.container)?;
    let inner = kernel.label(internal)?;
    let write = write_category_in(outer)?;
    let read = read_category_in(outer, inner)?;
    Some(Caller {
        home,
        thread,
        read,
        write,
    })
}

// Checks whether the container of a process links this internal container, and that one this thread.
fn leads_to<S: LabelStore + Drop>(
    kernel: &Kernel<S>,
    container: ObjId,
    internal: ObjId,
    thread: ObjId,
) -> bool
    ensures { result ≡ leads_to (state kernel.now) container internal thread }
{
    kernel.is_linked(container, internal)
        && kernel.is_linked(internal, thread)
        && kernel.is_thread(thread)
}

// Returns the category by which a process writes, which the label of its container contains at 0.
fn write_category_in(outer: &Label) -> Option<Category>
    ensures { result ≡ write_category_in outer.now }
{
    let exceptions = outer.exceptions();
    for &(category, level) in exceptions {
        if is_zero(level) {
            return Some(category);
        }
    }
    None
}

// Returns the category by which a process keeps its secrets, from the labels of its container and of its
// internal container.
fn read_category_in(outer: &Label, inner: &Label) -> Option<Category>
    ensures { result ≡ read_category_in outer.now inner.now }
{
    let exceptions = inner.exceptions();
    for &(category, level) in exceptions {
        if is_own_secret(outer, category, level) {
            return Some(category);
        }
    }
    None
}

// Checks whether this is level 0.
fn is_zero(level: Level) -> bool
    ensures { result ≡ is_zero level }
{
    matches!(level, Level::L0)
}

// Checks whether a category has level 3, and doesn't in the label of the container outside.
fn is_own_secret(outer: &Label, category: Category, level: Level) -> bool
    ensures { result ≡ (is_three level && not (is_three (level_of outer.now category))) }
{
    is_three(level) && !is_three(outer.get(category))
}
